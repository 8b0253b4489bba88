// One record of a journal of calls.
ghost use Rattle.std.specs.Prelude.{◌≡◌};
ghost use Rattle.journal.specs.Write.{told_written};
ghost use Rattle.nas_c.specs.JournalNumbers.{writes_shown, shown_written, journal_numbers};

use crate::Shown;
use crate::answers::Shows;
use refusals::Refusal;

fn show_written(written: Result<usize, Refusal>) -> Shown
    ensures { result ≡ shown_written (told_written written) }
{
    match written {
        Ok(wrote) => Shown {
            wrote,
            ..Shown::default()
        },
        Err(refusal) => refusal.show(),
    }
}

#[unsafe(no_mangle)]
pub extern "C" fn saihdelu_journal(kind: u8, bytes: &[u8], out: &mut [u8]) -> Shown
    ensures { writes_shown result out.new ≡ journal_numbers kind bytes.now out.old }
{
    show_written(journal::write(kind, &[], bytes, out))
}
