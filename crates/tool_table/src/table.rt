//! The reader of a table's sections, which makes rows of them and runs these.

use crate::difference::tell;
use crate::outcome::outcome_of;
use crate::row::{Relation, Row, Variants, Variation, Varied, Wanted};
use crate::variants::tell_variants;
use row_tables::{
    Fault, NamedText, RowRunner, Section, Text, Texts, Told, byte, change, count, named, no_lines,
    numbers,
};
use std::alloc::{AllocError, Global};

/// Which text the sections that change a text speak of.
#[derive(Clone, Copy)]
enum Place {
    Nowhere,
    Named,
    File,
    Input,
    Out,
    Err,
}

/// Reads the sections of tables, one after the other. A text that was named stays known in the tables behind.
#[derive(Drop)]
pub struct Reader {
    alloc: Global,
    texts: Texts,
    row: Option<Row>,
    place: Place,
}

impl Reader {
    /// A reader that knows no text.
    pub fn new(alloc: Global) -> Reader {
        Reader {
            alloc,
            texts: Texts::new(alloc),
            row: None,
            place: Place::Nowhere,
        }
    }

    /// Names a text.
    fn add_text(&mut self, section: &Section<'_>) -> Result<(), Fault> {
        self.texts.add(section)?;
        self.place = Place::Named;
        Ok(())
    }

    /// Begins a row.
    fn begin_row(&mut self, section: &Section<'_>) -> Result<(), Fault> {
        no_lines(section)?;
        if self.row.is_some() {
            return Err(Fault::NoStatus);
        }
        if section.argument.is_empty() {
            return Err(Fault::NoName);
        }
        if self.texts.has(section.argument) {
            return Err(Fault::NameTwice);
        }
        self.row = Some(Row::new(self.alloc, section.argument)?);
        self.place = Place::Nowhere;
        Ok(())
    }

    /// Ends the row with its status.
    fn end_row(&mut self, section: &Section<'_>) -> Result<Row, Fault> {
        no_lines(section)?;
        let row = self.open_row()?;
        row.status = byte(section.argument)?;
        self.taken_row()
    }

    /// Has the row that is open run with many texts in place of its last one, and ends it with the statuses that may
    /// come.
    fn end_variants(&mut self, section: &Section<'_>, variation: Variation) -> Result<Row, Fault> {
        no_lines(section)?;
        let varied = self.varied()?;
        let statuses = numbers(self.alloc, section.argument)?;
        self.open_row()?.variants = Some(Variants {
            varied,
            variation,
            statuses,
        });
        self.taken_row()
    }

    /// The text that may be varied.
    fn varied(&self) -> Result<Varied, Fault> {
        match self.place {
            Place::Input => Ok(Varied::Input),
            Place::File => Ok(Varied::File),
            _ => Err(Fault::NoText),
        }
    }

    /// The row that was open.
    fn taken_row(&mut self) -> Result<Row, Fault> {
        self.place = Place::Nowhere;
        self.row.take().ok_or(Fault::OutsideRow)
    }

    /// Puts a named text behind the one that may be changed.
    fn add_behind(&mut self, section: &Section<'_>) -> Result<(), Fault> {
        let alloc = self.alloc;
        let more = self.texts.whole(section.argument, &section.text)?;
        match self.last_text() {
            Some(last) => Ok(put_behind(alloc, last, &more)?),
            None => Err(Fault::NoText),
        }
    }

    /// Changes the text of the last section that has one.
    fn change_last(&mut self, section: &Section<'_>) -> Result<(), Fault> {
        let alloc = self.alloc;
        match self.last_text() {
            Some(text) => change(alloc, text, section),
            None => Err(Fault::NoText),
        }
    }

    /// Adds what a section says to the row that is open, or to the texts.
    fn add(&mut self, section: &Section<'_>) -> Result<(), Fault> {
        match section.key {
            "behind" => self.add_behind(section),
            "text" => self.add_text(section),
            "row" => self.begin_row(section),
            "line" | "line_feed" | "no_line_feed" | "times" => self.change_last(section),
            "file" => self.add_file(section),
            "input" => self.set_input(section),
            "out" => self.set_out(Relation::Same, section),
            "out_begins_with" => self.set_out(Relation::BeginWith, section),
            "out_cut_from" => self.set_out(Relation::CutFrom, section),
            "err" => self.set_err(Relation::Same, section),
            "err_cut_from" => self.set_err(Relation::CutFrom, section),
            _ => self.set_part(section),
        }
    }

    /// Adds a file to the shelf.
    fn add_file(&mut self, section: &Section<'_>) -> Result<(), Fault> {
        let (name, of) = named(section.argument)?;
        let text = self.texts.text(of, &section.text)?;
        let file = NamedText::new(self.alloc, name, text)?;
        self.open_row()?.files.push(file)?;
        self.place = Place::File;
        Ok(())
    }

    /// States the input.
    fn set_input(&mut self, section: &Section<'_>) -> Result<(), Fault> {
        let text = self.texts.text(section.argument, &section.text)?;
        self.open_row()?.input = text;
        self.place = Place::Input;
        Ok(())
    }

    /// States what is wanted on `out`.
    fn set_out(&mut self, relation: Relation, section: &Section<'_>) -> Result<(), Fault> {
        let text = self.texts.text(section.argument, &section.text)?;
        self.open_row()?.out = Wanted { relation, text };
        self.place = Place::Out;
        Ok(())
    }

    /// States what is wanted on `err`.
    fn set_err(&mut self, relation: Relation, section: &Section<'_>) -> Result<(), Fault> {
        let text = self.texts.text(section.argument, &section.text)?;
        self.open_row()?.err = Wanted { relation, text };
        self.place = Place::Err;
        Ok(())
    }

    /// Sets the words of the row that is open, or a part of its plan.
    fn set_part(&mut self, section: &Section<'_>) -> Result<(), Fault> {
        no_lines(section)?;
        self.place = Place::Nowhere;
        let alloc = self.alloc;
        set(alloc, self.open_row()?, section.key, section.argument)
    }

    /// The row that is open.
    fn open_row(&mut self) -> Result<&mut Row, Fault> {
        self.row.as_mut().ok_or(Fault::OutsideRow)
    }

    /// The text of the last section that has one, where it may still be changed.
    fn last_text(&mut self) -> Option<&mut Text> {
        match self.place {
            Place::Nowhere => None,
            Place::Named => self.texts.last(),
            Place::File => Some(&mut self.row.as_mut()?.files.last_mut()?.text),
            Place::Input => Some(&mut self.row.as_mut()?.input),
            Place::Out => Some(&mut self.row.as_mut()?.out.text),
            Place::Err => Some(&mut self.row.as_mut()?.err.text),
        }
    }
}

impl RowRunner for Reader {
    type Row = Row;

    /// Begins a table: no row is open, and no text can be changed.
    fn begin(&mut self) {
        self.row = None;
        self.place = Place::Nowhere;
    }

    /// Takes a section, and gives the row that it ends.
    fn take(&mut self, section: &Section<'_>) -> Result<Option<Row>, Fault> {
        match section.key {
            "status" => Ok(Some(self.end_row(section)?)),
            "each_cut" => Ok(Some(self.end_variants(section, Variation::Cuts)?)),
            "each_byte" => Ok(Some(self.end_variants(section, Variation::Bytes)?)),
            _ => {
                self.add(section)?;
                Ok(None)
            }
        }
    }

    /// Ends a table: no row may be open.
    fn end(&self) -> Result<(), Fault> {
        if self.row.is_some() {
            return Err(Fault::NoStatus);
        }
        Ok(())
    }

    /// Runs a row, and adds its lines to the report. What it prints is a text with the row's name, for the rows behind.
    fn run(&mut self, alloc: Global, row: &Row, report: &mut Told) -> Result<bool, Fault> {
        if let Some(variants) = &row.variants {
            self.texts.keep(row.name.as_str(), Text::empty(alloc))?;
            return Ok(tell_variants(alloc, row, variants, report)?);
        }
        let outcome = outcome_of(alloc, row)?;
        let is_ok = tell(alloc, row, &outcome, report)?;
        self.texts.keep(row.name.as_str(), Text::once(outcome.out))?;
        Ok(is_ok)
    }
}

/// Puts bytes behind a text, which then stands once.
fn put_behind(alloc: Global, text: &mut Text, more: &[u8]) -> Result<(), AllocError> {
    let mut made = text.whole(alloc)?;
    made.extend_from_slice(more)?;
    *text = Text::once(made);
    Ok(())
}

/// Sets the words of a row, or a part of its plan.
fn set(alloc: Global, row: &mut Row, key: &str, argument: &str) -> Result<(), Fault> {
    match key {
        "words" => return add_words(alloc, &mut row.words, argument),
        "word" => return Ok(row.words.push(String::from_str(alloc, argument)?)?),
        "step" => row.plan.step = count(argument)?,
        "room" => row.plan.room = count(argument)?,
        "failing_reads" => row.plan.failing_reads = numbers(alloc, argument)?,
        "failing_files" => row.plan.failing_files = numbers(alloc, argument)?,
        "failing_writes" => row.plan.failing_writes = numbers(alloc, argument)?,
        "failing_reports" => row.plan.failing_reports = numbers(alloc, argument)?,
        _ => return Err(Fault::UnknownMarker),
    }
    Ok(())
}

/// Adds the words of a line.
fn add_words(alloc: Global, words: &mut Vec<String>, line: &str) -> Result<(), Fault> {
    for word in line.split_whitespace() {
        words.push(String::from_str(alloc, word)?)?;
    }
    Ok(())
}
