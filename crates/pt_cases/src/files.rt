//! Files in memory, which the lines of a script give.

use pt_io::Shelf;
use pt_tags::{List, Name};
use std::alloc::{AllocError, Global};

/// Names and texts, the last given first: of the files of one name the last one counts.
#[derive(Drop)]
pub struct Files {
    files: Vec<(String, String)>,
}

impl Files {
    /// No file.
    pub fn new(alloc: Global) -> Files {
        Files {
            files: Vec::new(alloc),
        }
    }

    /// Gives a file its text.
    pub fn give(&mut self, name: String, text: String) -> Result<(), AllocError> {
        self.files.insert(0, (name, text))?;
        Ok(())
    }

    /// Drops all files.
    pub fn clear(&mut self) {
        self.files.clear();
    }

    /// A shelf of these files, on which the calls of these numbers fail.
    pub fn shelf(&self, alloc: Global, failing: Vec<u64>) -> Result<Shelf, AllocError> {
        let contents = self.contents(alloc)?;
        Ok(Shelf::new(alloc, contents, failing))
    }

    /// All files, as a shelf takes them.
    fn contents(&self, alloc: Global) -> Result<Vec<(Name, List<u8>)>, AllocError> {
        let mut contents = Vec::new(alloc);
        for (name, text) in &self.files {
            contents.push(content(alloc, name.as_str(), text.as_str())?)?;
        }
        Ok(contents)
    }
}

/// A file, as a shelf takes it.
pub fn content(alloc: Global, name: &str, text: &str) -> Result<(Name, List<u8>), AllocError> {
    let bytes = Vec::from_slice(alloc, text.as_bytes())?;
    let name = String::from_str(alloc, name)?;
    Ok((Name::new(name), List::new(bytes)))
}

/// Appends the words of a line, each as a line of its own.
pub fn push_lines(text: &mut String, words: &str) -> Result<(), AllocError> {
    for word in words.split(' ') {
        if !word.is_empty() {
            text.push_str(word)?;
            text.push_str("\n")?;
        }
    }
    Ok(())
}
