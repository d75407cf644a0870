//! Who reports what stands beside an answer.
use fmp_cli_desk::Desk;
use fmp_cli_notes::Notes;
use fmp_out::Text;
use fmp_run_devices::{History, Passing};

/// One who reports lines that stand beside an answer, and keeps in mind which.
#[derive(Drop)]
pub(crate) struct Beside<'a, D> {
    desk: &'a D,
    /// What was handed to the desk, in proofs alone.
    told: History,
    /// Memory was wanting for a line.
    lacks: bool,
}

impl<'a, D: Desk> Beside<'a, D> {
    /// Nothing was told yet.
    pub(crate) fn new(desk: &'a D) -> Beside<'a, D> {
        Beside {
            desk,
            told: History::new(),
            lacks: false,
        }
    }
}

impl<'a, D: Desk> Notes for Beside<'a, D> {
    ghost told = { λ b. record { wanting = b.lacks; bytes = b.told.bytes } };

    fn note(&mut self, mut line: Text) {
        line.put_byte(b'\n');
        match line.finish() {
            Ok(line) => {
                let bytes = line.as_slice();
                self.desk.note(bytes);
                self.told = self.told.with(&Passing { bytes });
            }
            Err(_) => self.lacks = true,
        }
    }
}
