//! What holds of the names that callers give.
ghost use Rattle.names_alias.specs.CallerNames.{CallerNamesAreGood};

/// A caller's name isn't INTERNAL, and a name that is too long has more than 64 bytes.
pub fn caller_names_are_good()
    ensures { CallerNamesAreGood }
{}
