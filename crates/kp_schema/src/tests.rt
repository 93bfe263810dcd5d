use super::*;
use Dir::*;
use Kind::*;
use Mark::*;

// Depth, kind, mark, first and last version of each field of a DescribeGroups request, as the guide's "The Messages"
// has them: `groups`, its entries, and `include_authorized_operations`.
const ROWS: [(u8, Kind, Mark, i16, i16); 3] = [
    (0, Array, Plain, 0, 4),
    (1, Str, Group, 0, 4),
    (0, Bool, Plain, 3, 4),
];

#[test]
fn a_message_has_the_fields_of_the_guide(rt: HostRuntime) {
    let found = fields(15, 4, Request).unwrap_or(&[]);
    assert_eq!(rt; found.len(), ROWS.len());
    for (field, row) in found.iter().zip(&ROWS) {
        assert_eq!(rt;
            (field.depth, field.kind, field.mark, field.from, field.to),
            *row
        );
    }
}

#[test]
fn sixteen_apis_are_supported(rt: HostRuntime) {
    assert_eq!(rt; supported().len(), 16);
    assert!(rt; supported().contains(&(18, 0, 2)));
    for (key, version) in [(0, 2), (0, 9), (4, 0), (18, 3), (21, 0), (-1, 0)] {
        assert!(rt;
            fields(key, version, Response).is_none(),
            "key {key}, version {version}"
        );
    }
}
