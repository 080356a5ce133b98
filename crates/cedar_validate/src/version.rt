//! Version of the program, and its build.

/// The version of this program, and of Cedar's validator, which it follows.
pub const VERSION: &str = "cedar-validate 0.1.0, Cedar 4.14.1";

/// The commit, the kit, and whether the build is proved: a script writes it into the linked program, in 120 bytes.
const BUILD: &str =
    "of a build without a stamp                                                                                              ";

/// The build, without the blanks that fill its place.
pub fn build() -> &'static str {
    BUILD.trim_end()
}
