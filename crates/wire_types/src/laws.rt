//! What holds of the spellings themselves.

ghost use Rattle.std.specs.Int.{w8, w16, w32, w64};
ghost use Rattle.std.specs.Prelude.{FitsSigned};
ghost use Rattle.wire_types.specs.Numbers.{int8, int16, int32, int64};
ghost use Rattle.wire_types.specs.Strings.{string, IsString};
ghost use Rattle.wire_types.specs.Lengths.{byte_string, IsByteString, array_count, IsCount};
ghost use Rattle.wire_types.specs.OneSpelling.{OneSpelling};

/// Bytes tell the item that they begin with, if they are known to begin with one.
pub fn one_spelling()
    ensures int8 { OneSpelling int8 (FitsSigned w8) }
    ensures int16 { OneSpelling int16 (FitsSigned w16) }
    ensures int32 { OneSpelling int32 (FitsSigned w32) }
    ensures int64 { OneSpelling int64 (FitsSigned w64) }
    ensures string { OneSpelling string IsString }
    ensures byte_string { OneSpelling byte_string IsByteString }
    ensures array_count { OneSpelling array_count IsCount }
{}
