//! Texts that stand for extension values: addresses, decimal numbers, points in time and durations. They are read byte by byte,
//! because each of them is ASCII alone.
mod addresses;
mod numbers;
mod readers;
mod times;

pub use addresses::is_address_or_range;
pub use numbers::{is_decimal, is_duration};
pub use times::is_point_in_time;
