//! What holds of every book of a life, and of the policy of a disk.
ghost use Rattle.bot_machine.specs.BookLaws.{AreBookLaws};
ghost use Rattle.bot_machine.specs.Policy.{KeepsPolicy, PolicyIsUnseen, DisksAreServed};

use medium::Medium;

/// Does nothing: its contract says what an event does to the book of a life. A write in progress is
/// the last one accepted, or the unit is faulted; the promises stay, or a command promises all
/// accepted writes; nothing that the life opened with changes; a faulted unit keeps its book.
#[tactic(auto, using(crate::proofs::BookLaws::book_laws))]
pub fn book_laws()
    ensures { AreBookLaws }
{}

/// Does nothing: its contract says that over its lives a disk retires as was asked at their start,
/// and that a host sees nothing of it: two disks that differ in that alone give the same packets,
/// over a medium of any kind that refuses nothing. A disk that was started is such a disk.
#[tactic(auto, using(crate::proofs::Policy::keeps_policy))]
pub fn policy_laws<M: Medium>()
    ensures kept { KeepsPolicy }
    ensures unseen { PolicyIsUnseen M.state }
    ensures served { DisksAreServed M.state }
{}
