ghost use Rattle.std.specs.Prelude.{◌≡◌};
ghost use Rattle.kp_schema.specs.Field.{is_between};

// Whether the version is one of those from the first to the last.
pub(crate) fn is_between(version: i16, first: i16, last: i16) -> bool
    ensures { result ≡ is_between first last version }
{
    first <= version && version <= last
}
