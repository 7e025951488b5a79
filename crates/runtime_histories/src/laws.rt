//! Laws of legal histories.
ghost use Rattle.runtime_histories.specs.PinLaw.{PinnedStays};

/// What a caller has pinned is changed by its own entries alone.
pub fn pinned_stays()
    ensures { PinnedStays }
{}
