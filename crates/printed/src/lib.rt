// What a program prints for its input: the text that was put on its page, or the refusal of the input.
#![tactic(auto)]

ghost use Rattle.std.specs.Prelude.{◌≡◌};
ghost use Rattle.printed.specs.Printed.{printed_bytes, printed_page};
ghost use Rattle.printed.specs.Inner.{RefusalFits};

use types::Refusal;

// An answer, printed on the page on which it was given: the text stands there already, a refusal is put at the start of the page, if there
// is room. Answers how many bytes.
pub fn print(answer: Result<usize, Refusal>, page: &mut [u8]) -> usize
    ensures value { result ≡ printed_bytes answer page.old }
    ensures page_after { page.new ≡ printed_page answer page.old }
    ensures refusal_fits { RefusalFits answer }
{
    // Kept by hand: of a closure that is not called it is not known that it leaves the page as it was.
    match answer {
        Ok(n) => n,
        Err(r) => report::refused(r, page).unwrap_or(0),
    }
}
