// Readings of policies with faults, and of schemas. Each subject has a module.
mod blanks;
mod faulty_policies;
mod limits;
mod schemas_once;
mod shown;
mod unfinished;
