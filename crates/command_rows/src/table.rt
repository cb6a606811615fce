//! A table of cases, which is read and tried line by line.
use crate::answer::{WrittenAnswer, run_words};
use crate::command::Command;
use crate::devices::Devices;
use crate::line::{Line, Piece, line_of};
use crate::repeated::Repeated;
use crate::report::report;
use crate::section::Section;
use crate::text::append;
use anyhow::{Context, Result, bail};
use std::alloc::{AllocError, Global};
use std::mem;

/// A file that commands may name.
#[derive(Drop)]
struct File {
    name: String,
    text: Vec<u8>,
}

impl File {
    /// Its name and its text once more.
    fn copy(&self) -> Result<(String, Vec<u8>), AllocError> {
        Ok((self.name.clone()?, self.text.clone()?))
    }
}

/// Commands, and the text that each of them is to write.
#[derive(Drop)]
struct Row {
    commands: Vec<Command>,
    wanted: Vec<u8>,
}

/// What the next line of text belongs to.
#[derive(Drop)]
enum Place {
    Nothing,
    File(File),
    Row(Row),
}

/// A table as far as it was read.
#[derive(Drop)]
pub struct Table {
    alloc: Global,
    lines: u64,
    files: Vec<File>,
    // How many of the files stand before the first section.
    common: usize,
    section: Option<Section>,
    devices: Devices,
    place: Place,
    // The row that is read now, where it stands for several.
    repeated: Option<Repeated>,
}

impl Table {
    /// A table of which nothing was read.
    pub fn new(alloc: Global) -> Table {
        Table {
            alloc,
            lines: 0,
            files: Vec::new(alloc),
            common: 0,
            section: None,
            devices: Devices::new(alloc),
            place: Place::Nothing,
            repeated: None,
        }
    }

    /// Takes the next line. Where a row ends there, it is tried, and reported if it is wrong.
    pub fn take(&mut self, rt: &impl Print, text: &str) -> Result<()> {
        self.lines = self.lines.saturating_add(1);
        let number = self.lines;
        self.take_or_keep(rt, text)
            .context(format_args!("line {number}"))
    }

    /// Ends the table, and prints how the rows of the last section went.
    pub fn close(&mut self, rt: &impl Print) -> Result<()> {
        if matches!(&self.place, Place::Row(_)) || self.repeated.is_some() {
            bail!("the last row has no status");
        }
        self.end_section(rt)
    }

    /// Takes the line, or keeps it where its row stands for several. At the end of such a row each of them is taken.
    fn take_or_keep(&mut self, rt: &impl Print, text: &str) -> Result<()> {
        let Some(mut repeated) = self.repeated.take() else {
            return self.take_line(rt, text);
        };
        repeated.lines.push(String::from_str(self.alloc, text)?)?;
        if !matches!(line_of(text), Some(Line::Status(_))) {
            self.repeated = Some(repeated);
            return Ok(());
        }
        self.take_each(rt, &repeated)
    }

    /// Takes the lines of a row that stands for several, with each of its numbers.
    fn take_each(&mut self, rt: &impl Print, repeated: &Repeated) -> Result<()> {
        for number in repeated.first..=repeated.last {
            self.take_numbered(rt, repeated.lines.as_slice(), number)?;
        }
        Ok(())
    }

    /// Takes lines with a number for each `\#` in them.
    fn take_numbered(&mut self, rt: &impl Print, lines: &[String], number: u32) -> Result<()> {
        let digits = format!(in self.alloc; "{number}")?;
        for line in lines {
            let line = line.as_str().replace(self.alloc, "\\#", digits.as_str())?;
            self.take_line(rt, line.as_str())?;
        }
        Ok(())
    }

    fn take_line(&mut self, rt: &impl Print, text: &str) -> Result<()> {
        let line = line_of(text).context("not a line of a table")?;
        match mem::replace(&mut self.place, Place::Nothing) {
            Place::Nothing => self.take_outside(rt, line),
            Place::File(file) => self.take_in_file(rt, file, line),
            Place::Row(row) => self.take_in_row(rt, row, line),
        }
    }

    fn take_outside(&mut self, rt: &impl Print, line: Line<'_>) -> Result<()> {
        match line {
            Line::Blank => {}
            Line::Section(name) => self.begin_section(rt, name)?,
            Line::File { name, first } => self.begin_file(name, first)?,
            Line::Setting { setting, number } => self.devices.set(setting, number)?,
            Line::Each { first, last } => {
                self.repeated = Some(Repeated::new(self.alloc, first, last));
            }
            Line::Command(words) => self.begin_row(words)?,
            Line::Text(_) | Line::TextOf { .. } => bail!("a text of no file and no row"),
            Line::Status(_) => bail!("a status of no row"),
        }
        Ok(())
    }

    fn take_in_file(&mut self, rt: &impl Print, mut file: File, line: Line<'_>) -> Result<()> {
        match line {
            Line::Text(piece) => append(&mut file.text, piece)?,
            Line::TextOf { name, most } => self.append_file(&mut file.text, name, most)?,
            _ => {
                self.files.push(file)?;
                return self.take_outside(rt, line);
            }
        }
        self.place = Place::File(file);
        Ok(())
    }

    fn take_in_row(&mut self, rt: &impl Print, mut row: Row, line: Line<'_>) -> Result<()> {
        match line {
            Line::Command(words) if row.wanted.is_empty() => return self.take_command(row, words),
            Line::Text(piece) => append(&mut row.wanted, piece)?,
            Line::TextOf { name, most } => self.append_file(&mut row.wanted, name, most)?,
            Line::Status(status) => return self.end_row(rt, &row, status),
            _ => bail!("the row above has no status"),
        }
        self.place = Place::Row(row);
        Ok(())
    }

    /// Begins a row with the command of the line that was read.
    fn begin_row(&mut self, words: &str) -> Result<()> {
        let row = Row {
            commands: Vec::new(self.alloc),
            wanted: Vec::new(self.alloc),
        };
        self.take_command(row, words)
    }

    /// Appends the command of the line that was read into a row.
    fn take_command(&mut self, mut row: Row, words: &str) -> Result<()> {
        row.commands
            .push(Command::new(self.alloc, self.lines, words)?)?;
        self.place = Place::Row(row);
        Ok(())
    }

    /// Appends the text of the last file of that name, or this number of its first bytes.
    fn append_file(&self, bytes: &mut Vec<u8>, name: &str, most: Option<u32>) -> Result<()> {
        let text = self.text_of(name)?;
        let len = most.map_or(text.len(), |most| (most as usize).min(text.len()));
        bytes.extend_from_slice(&text[..len])?;
        Ok(())
    }

    /// The text of the last file of that name.
    fn text_of(&self, name: &str) -> Result<&[u8]> {
        for file in self.files.iter().rev() {
            if file.name.as_str() == name {
                return Ok(file.text.as_slice());
            }
        }
        bail!("no file {name}")
    }

    /// Ends the section above. Its files are gone; those above the first section stay.
    fn begin_section(&mut self, rt: &impl Print, name: &str) -> Result<()> {
        self.end_section(rt)?;
        match &self.section {
            None => self.common = self.files.len(),
            Some(_) => self.files.truncate(self.common),
        }
        self.section = Some(Section::new(self.alloc, name)?);
        Ok(())
    }

    fn end_section(&self, rt: &impl Print) -> Result<()> {
        match &self.section {
            None => Ok(()),
            Some(section) => section.print(rt),
        }
    }

    fn begin_file(&mut self, name: &str, first: Option<Piece<'_>>) -> Result<()> {
        let mut file = File {
            name: String::from_str(self.alloc, name)?,
            text: Vec::new(self.alloc),
        };
        if let Some(piece) = first {
            append(&mut file.text, piece)?;
        }
        self.place = Place::File(file);
        Ok(())
    }

    /// Tries each command of a row. The next row has other devices.
    fn end_row(&mut self, rt: &impl Print, row: &Row, status: u8) -> Result<()> {
        for command in row.commands.iter() {
            self.try_command(rt, command, row.wanted.as_slice(), status)?;
        }
        self.devices = Devices::new(self.alloc);
        Ok(())
    }

    fn try_command(
        &mut self,
        rt: &impl Print,
        command: &Command,
        wanted: &[u8],
        status: u8,
    ) -> Result<()> {
        let files = self.files_of(command)?;
        let answer = run_words(self.alloc, command.words.as_slice(), files, &self.devices)?;
        let answer = self.redirect(command, answer)?;
        let Some(section) = &mut self.section else {
            bail!("a row before the first section");
        };
        let is_right = answer.is(wanted, status);
        section.count(is_right);
        if is_right {
            return Ok(());
        }
        report(rt, self.alloc, command, wanted, status, &answer)
    }

    /// Copies of the files that a command sees, the last one first, since of a name the first one counts.
    fn files_of(&self, command: &Command) -> Result<Vec<(String, Vec<u8>)>, AllocError> {
        let mut files = Vec::new(self.alloc);
        if let Some(input) = &command.input {
            files.push((String::from_str(self.alloc, "-")?, input.clone()?))?;
        }
        for file in self.files.iter().rev() {
            files.push(file.copy()?)?;
        }
        Ok(files)
    }

    /// Where the text of an answer goes to a file, it becomes that file, and none is left.
    fn redirect(&mut self, command: &Command, answer: WrittenAnswer) -> Result<WrittenAnswer> {
        let Some(name) = &command.kept_as else {
            return Ok(answer);
        };
        self.files.push(File {
            name: name.clone()?,
            text: answer.text,
        })?;
        Ok(WrittenAnswer {
            status: answer.status,
            text: Vec::new(self.alloc),
        })
    }
}
