//! What holds of every table of reservations. The functions do nothing: their contracts are the laws.

ghost use Rattle.scsi_reserve.specs.Laws.{OnceStays, HolderMayAll, HolderIsFenced};

/// States three laws. Whatever is requested, a nexus is registered at most once in a table. The holder of a reservation
/// may do everything. And fencing: a holder that another nexus preempts by its key can no longer write.
pub fn reservations_hold()
    ensures once { OnceStays }
    ensures holder { HolderMayAll }
    ensures fenced { HolderIsFenced }
{}
