// Samples of a host's own parts: a schema and some policies.
pub mod policies;
pub mod schemas;
