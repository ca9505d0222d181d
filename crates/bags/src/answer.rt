// The answer to a service.
use lines::line;
use service::call::{Window, serve};
use std::io;
use std::io::Stdout;
use stream::header::Header;

// The ending code and the steps of the first bags, no more of them than endings and steps.
fn print_bags(stdout: Stdout, bags: usize, endings: &[u8], steps: &[u32]) -> io::Result<()> {
    for (ending, steps) in endings.iter().zip(steps.iter()).take(bags) {
        stdout.write_all(line::bag_text(*ending, *steps).as_bytes())?;
    }
    Ok(())
}

// The service, and its line.
pub fn answer(
    stdout: Stdout,
    header: Header,
    file: &[u8],
    memory: &mut [u16],
    window: Window,
    budgets: &[u32],
    restarts: &[bool],
    words: &[u16],
    endings: &mut [u8],
    steps: &mut [u32],
) -> io::Result<()> {
    let served = serve(
        file,
        header.settings(),
        header.state(),
        memory,
        window,
        budgets,
        restarts,
        words,
        endings,
        steps,
    );
    let state = served.unwrap_or(header.state());
    let text = line::service_text(&served, state, memory, endings, steps);
    stdout.write_all(text.as_bytes())?;
    if served.is_ok() {
        print_bags(stdout, budgets.len(), endings, steps)?;
    }
    stdout.write_all(b"\n")
}
