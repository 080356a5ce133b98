// The layout of policies: annotations, effect, scope and conditions.
use crate::faults::FormatFault;
use crate::printer::{Gap, Printer};
use crate::roles::Role;
use crate::settings::Layout;
use crate::tokens::tokens_of;
use crate::writer::Writer;
use std::alloc::{AllocError, Global};

/// The text with its tokens and comments laid out. It fails at a blank outside of ASCII between two
/// tokens, if the answer is too long, and if memory is refused.
pub fn laid_out(alloc: Global, text: &str, layout: Layout) -> Result<String, FormatFault> {
    let found = tokens_of(alloc, text)?;
    let printer = Printer::new(alloc, layout, found.comments);
    let mut writer = Writer::new(alloc, printer, found.tokens.as_slice());
    let mut at = 0;
    for _ in 0..found.tokens.len() {
        let Some(role) = writer.role(at) else {
            break;
        };
        at = part(&mut writer, at, role)?;
        if writer.printer.is_too_long() {
            return Err(FormatFault::TooLong);
        }
    }
    Ok(writer.printer.finish()?)
}

/// Writes the part of a policy that begins with the token of number `at`, and returns the number of
/// the token behind it.
fn part(writer: &mut Writer<'_, '_>, at: usize, role: Role) -> Result<usize, AllocError> {
    let next = at.saturating_add(1);
    match role {
        Role::Annotation => annotation(writer, at),
        Role::Effect | Role::Condition => {
            writer.printer.begin_line();
            writer.write(at)?;
            let behind = writer.last_of(next).saturating_add(1);
            let tail = usize::from(writer.role(behind) == Some(Role::Semicolon));
            writer.write_bracket(next, tail)?;
            Ok(behind)
        }
        Role::Semicolon => {
            writer.printer.set_gap(Gap::None);
            writer.write(at)?;
            writer.printer.end_policy();
            Ok(next)
        }
        _ => {
            writer.write_next(at)?;
            Ok(next)
        }
    }
}

/// Writes an annotation on a line of its own.
fn annotation(writer: &mut Writer<'_, '_>, at: usize) -> Result<usize, AllocError> {
    let key = at.saturating_add(1);
    let value = key.saturating_add(1);
    let has_value = matches!(writer.role(value), Some(Role::Open(_)));
    let last = if has_value {
        writer.last_of(value)
    } else {
        key
    };
    writer.printer.begin_line();
    writer.write(at)?;
    for part in key..=last {
        writer.write_next(part)?;
    }
    Ok(last.saturating_add(1))
}
