// Verdicts on files, as an output shows them.
mod changes;
mod formats;
mod policies;
mod schemas;
mod several;
mod texts;
mod whole;
