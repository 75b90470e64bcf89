//! The bytes of a line, cut into fields.

ghost use Rattle.std.specs.Prelude.{◌≡◌, ◌==◌};
ghost use Rattle.std.specs.Option.{option_map};
ghost use Rattle.std.specs.List.{slice_split};
ghost use Rattle.nor_layout.specs.Fields.{is_separator, fields_of, exactly_two};

/// Whether a byte separates fields.
fn is_separator(byte: u8) -> bool
    ensures { result ≡ is_separator byte }
{
    matches!(byte, b' ' | b'\t')
}

/// The fields of a line where it has exactly two.
pub(crate) fn two_fields(line: &[u8]) -> Option<(&[u8], &[u8])>
    ensures { option_map (λ x. (x.0.now, x.1.now)) result ≡ exactly_two (fields_of line.now) }
{
    let mut fields = line
        .split(|byte| is_separator(*byte))
        .filter(|field| !field.is_empty());
    match (fields.next(), fields.next(), fields.next()) {
        (Some(first), Some(second), None) => Some((first, second)),
        _ => None,
    }
}

/// What stands on either side of the colon, where a field has exactly one.
pub(crate) fn two_offsets(field: &[u8]) -> Option<(&[u8], &[u8])>
    ensures { option_map (λ x. (x.0.now, x.1.now)) result
        ≡ exactly_two (slice_split (λ byte. byte == 58) field.now) }
{
    let mut offsets = field.split(|byte| *byte == b':');
    match (offsets.next(), offsets.next(), offsets.next()) {
        (Some(start), Some(end), None) => Some((start, end)),
        _ => None,
    }
}
