/// The greatest moment, and the greatest time of an image, in seconds since 1970-01-01T00:00:00Z.
pub const LAST_MOMENT: u64 = 250_000_000_000;

/// The greatest number of bytes of a payload, and of what a restore by one request sends.
pub const PAYLOAD_LIMIT: u64 = 67_108_864;
