// Refusals 4 and 5 of operations, as they stand in a file's blocks or one after the other.
ghost use Rattle.std.specs.Prelude.{◌≡◌};
ghost use Rattle.program.specs.Accept.{operations_refusal};
ghost use Rattle.program.specs.Answer.{answer_number};

use crate::layout::Operations;
use crate::role::role_of;
use program::answer::Refusal;

impl Operations<'_> {
    // Refusals 4 and 5: reading stops at the first that is not listed. `placed` holds up to the first that may not stand where it does.
    pub fn check(&self) -> Result<(), Refusal>
        ensures { answer_number result ≡ operations_refusal self.now.layout self.now.bytes.now self.now.count }
    {
        let mut placed = true;
        for i in 0..self.count {
            let Some(operation) = self.decode(i) else {
                return Err(Refusal::Field);
            };
            placed = placed && self.is_placed_as(i, role_of(operation));
        }
        if placed {
            Ok(())
        } else {
            Err(Refusal::Placement)
        }
    }
}
