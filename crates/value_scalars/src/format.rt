// The formats of scalars whose values are any bytes of a fixed size (R5.15).
ghost use Rattle.value_scalars.specs.Sizes.{Fixed};

// The size of a format whose values are any bytes of that size, and 0 for each other: a datetime is any integer, and date_duration's
// reserved fields are not looked at. No arm holds two neighbours, which would be a range, and be tested apart from the table that
// the compiler makes of the arms.
pub fn fixed_size(format: u32) -> usize
    ensures { Fixed format result }
{
    match format {
        constants::FORMAT_INT16 => 2,
        constants::FORMAT_INT32 | constants::FORMAT_FLOAT32 | constants::FORMAT_LOCAL_DATE => 4,
        constants::FORMAT_INT64
        | constants::FORMAT_FLOAT64
        | constants::FORMAT_DATETIME
        | constants::FORMAT_MEMORY => 8,
        constants::FORMAT_LOCAL_DATETIME => 8,
        constants::FORMAT_UUID | constants::FORMAT_RELATIVE_DURATION => 16,
        constants::FORMAT_DATE_DURATION => 16,
        _ => 0,
    }
}
