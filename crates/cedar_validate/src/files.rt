// Texts of files, and the schema, the links and the data in them.
ghost use Rattle.std.specs.Prelude.{◌≡◌, None, IfOk, IfSome, OnOk};
ghost use Rattle.cedar_findings.specs.Counts.{CountsFaults, CountsSame};

use crate::call::Call;
use cedar_findings::sources::{Source, read};
use cedar_findings::syntaxes::Syntax;
use cedar_types::base::ValidatorSchema;
use cedar_verdicts::data::DataKind;
use cedar_verdicts::links::Links;
use cedar_verdicts::shown::schemas::{SchemaFiles, Taken};
use cedar_verdicts::shown::texts::show_data;
use std::io;
use std::io::Write;
use std::rt::Files;

impl<R: Files + AllocGlobal + Input, O: Write, T: Write> Call<'_, R, O, T> {
    /// The text of a file. If it cannot be read, the reason is shown, and the answer is `None`.
    fn read_file(&mut self, name: &str) -> io::Result<Option<String>>
        ensures { OnOk result (CountsSame self.old.output self.new.output) }
    {
        self.write_shown()?;
        let read = read(self.rt, name);
        Ok(self.output.text_of(self.rt.alloc(), name, read)?)
    }

    /// The text of a file. A file that cannot be read is counted as a fault, and nothing else is counted.
    pub fn read_text(&mut self, name: &str) -> io::Result<Option<String>>
        ensures missing { IfOk result (λ text.
            text ≡ None → CountsFaults 1 self.old.output self.new.output) }
        ensures kept { IfOk result (λ text.
            IfSome text (λ t. CountsSame self.old.output self.new.output)) }
    {
        let text = self.read_file(name)?;
        if text.is_none() {
            self.output.totals.add_fault();
        }
        Ok(text)
    }

    /// The schema of these files. If there is none, the reason is shown, and the answer is `None`.
    pub fn read_schema(
        &mut self,
        names: &[String],
        syntax: Option<Syntax>,
    ) -> io::Result<Option<ValidatorSchema>> {
        let alloc = self.rt.alloc();
        let mut files = SchemaFiles::new(alloc, names, syntax);
        for name in names {
            let name = name.as_str();
            let Some(text) = self.read_file(name)? else {
                return Ok(None);
            };
            let text = text.as_str();
            let source = Source { name, text };
            if let Taken::Whole(schema) = files.take_in(alloc, source, &mut self.output)? {
                return Ok(schema);
            }
        }
        Ok(files.schema(alloc, &mut self.output)?)
    }

    /// The links of a file: none if no file is named, or if the file cannot be read.
    pub fn read_links(&mut self, name: &Option<String>) -> io::Result<Links> {
        let alloc = self.rt.alloc();
        if let Some(name) = name {
            if let Some(text) = self.read_text(name.as_str())? {
                return Ok(Links::read(alloc, text)?);
            }
        }
        Ok(Links::none(alloc))
    }

    /// Checks the data of a file, if one is named.
    pub fn check_data(
        &mut self,
        schema: &ValidatorSchema,
        kind: DataKind,
        name: &Option<String>,
    ) -> io::Result<()> {
        let Some(name) = name else {
            return Ok(());
        };
        self.output.totals.data.is_asked = true;
        let name = name.as_str();
        if let Some(text) = self.read_text(name)? {
            let text = text.as_str();
            let source = Source { name, text };
            show_data(self.rt.alloc(), schema, kind, source, &mut self.output)?;
        }
        Ok(())
    }
}
