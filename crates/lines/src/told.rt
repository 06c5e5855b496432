// What C is told of the answer: a status, 0 or the refusal's number, and two numbers.
ghost use Rattle.std.specs.Prelude.{◌≡◌};
ghost use Rattle.lines.specs.Told.{answer_told};

use crate::Page;
use answers::Refusal;

// An answer for C.
#[derive(Clone, Copy)]
pub struct CPage {
    pub status: u32,
    pub at: u64,
    pub next: u64,
}

// A page: its bytes, and the offset behind the last line answered. A refusal: its offset, and 0.
pub fn page_told(answer: Result<Page, Refusal>) -> CPage
    ensures { result ≡ answer_told answer }
{
    match answer {
        Ok(p) => CPage {
            status: 0,
            at: p.bytes as u64,
            next: p.next as u64,
        },
        Err(r) => {
            let told = answers::refusal_told(r);
            CPage {
                status: told.status,
                at: told.at,
                next: 0,
            }
        }
    }
}
