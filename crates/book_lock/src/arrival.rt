//! An arrival at a book, whose plan is known to be the one in force or is compared with it.

ghost use Rattle.std.specs.Prelude.{◌≡◌, ◌≢◌, ◌↔◌, IfOk, IsErrOf, IsTrue};
ghost use Rattle.judge_core.specs.Judging.{is_bookable};
ghost use Rattle.event_log.specs.History.{next_place, plan_in_force};
ghost use Rattle.event_log.specs.Event.{MemoryIsLast, Does, arrive};
ghost use Rattle.book_core.specs.Receiving.{IsReceipt, arrival_reply};

use book_core::{Book, BookRows, NotBooked, Receipt};
use judge_core::Judged;

/// Books an arrival as [`Book::arrive`] does. Where it is known to be judged by the plan in force, no plans are compared.
///
/// # Errors
///
/// The book's, in its order. A refusal leaves the book as it was.
#[inline(never)] // for speed: it then writes its answer where its caller keeps it, and not through locals of its own
pub fn book_arrival<S: BookRows>(
    book: &mut Book<S>,
    conn: u32,
    judged: &Judged,
    is_current: bool,
) -> Result<Receipt, NotBooked>
    requires bookable { IsTrue (is_bookable judged.now.raw) }
    requires current { IsTrue is_current → judged.now.plan ≡ plan_in_force book.old }
    ensures does { Does (arrive conn judged.now.channel judged.now.raw)
        book.old book.new (arrival_reply result) }
    ensures memory { MemoryIsLast (arrive conn judged.now.channel judged.now.raw)
        book.old (arrival_reply result) }
    ensures receipt { IfOk result
        (IsReceipt (next_place book.old) conn judged.now.channel judged.now.raw) }
    ensures plan { IsErrOf result NotBooked.PlanChanged
        ↔ judged.now.plan ≢ plan_in_force book.old }
    ensures same_plan { IsErrOf result NotBooked.Full
        → judged.now.plan ≡ plan_in_force book.old }
{
    if is_current {
        return book.book_arrival(conn, judged);
    }
    book.arrive(conn, judged)
}
