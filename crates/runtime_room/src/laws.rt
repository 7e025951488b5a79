//! What holds of what is published.
ghost use Rattle.runtime_room.specs.Published.{PublishedGrows, OpenedArePublished};

/// What is published only grows.
pub fn published_grows()
    ensures { PublishedGrows }
{}

/// A pair is published exactly where it was opened.
pub fn opened_pairs_are_published()
    ensures { OpenedArePublished }
{}
