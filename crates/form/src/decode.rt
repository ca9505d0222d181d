// A program decoded into words.
ghost use Rattle.std.specs.Prelude.{◌≡◌, ◌*◌, ◌<◌, ◌≤◌, length, get_or};
ghost use Rattle.program.specs.Bytes.{over};
ghost use Rattle.program.specs.File.{file_refusal, operation_count, program_of};
ghost use Rattle.operations.specs.declared.operation.Operation.{Operation};
ghost use Rattle.form.specs.Words.{words_of_bytes, words_for};
ghost use Rattle.form.specs.Form.{form_of};

use loader::file::operation_count;

// The words of an operation's bytes.
#[tactic(auto, unfolding(crate::specs::Words::words_of_bytes))]
fn words_of(bytes: &[u8; 8]) -> [u16; 16]
    ensures { result ≡ words_of_bytes bytes.now }
{
    let [b0, b1, b2, b3, b4, b5, b6, _] = *bytes;
    [
        u16::from(b0),
        u16::from(b1),
        u16::from(b2 % 16),
        u16::from(b2 / 16),
        u16::from(b3 % 16),
        u16::from(b3 / 16),
        u16::from(b4 % 16),
        u16::from(b4 / 16),
        u16::from(b5 % 16),
        u16::from(b5 / 16),
        u16::from(b6),
        u16::from_le_bytes([b2, b3]),
        u16::from_le_bytes([b4, b5]),
        0,
        0,
        0,
    ]
}

// The words of operation i of an accepted file at the start of `to`; the rest of `to` stays.
pub fn decode_operation(file: &[u8], i: usize, to: &mut [u16])
    requires file_value { file_refusal file.now ≡ 0 }
    requires i_bound { i < operation_count file.now }
    requires in_bounds { 16 ≤ length to.old }
    ensures { (other : Operation) → to.new ≡ over (words_for (get_or (program_of file.now) i other)) to.old }
{
    let at = 512 * (i / 63) + 8 + 8 * (i % 63);
    let words = words_of(file[at..at + 8].as_array().unwrap());
    to[..16].copy_from_slice(&words);
}

// The words of all operations of an accepted file at the start of `to`; the rest of `to` stays.
pub fn decode_program(file: &[u8], to: &mut [u16])
    requires file_value { file_refusal file.now ≡ 0 }
    requires file_in_bounds { 16 * operation_count file.now ≤ length to.old }
    ensures { to.new ≡ over (form_of (program_of file.now)) to.old }
{
    for i in 0..operation_count(file) {
        decode_operation(file, i, &mut to[16 * i..]);
    }
}
