//! Files of formulas as blocks, and command lines that name them, worked out by hand.

use pt_blocks::{Block, Blocks, least};
use pt_formula_file::{add_formulas, blocks_option};
use pt_types::Law;
use std::alloc::{AllocError, Global};
use std::test::Fail;

/// Command lines without a file of formulas, or the file and the other words.
const COMMAND_LINES: &str = "run g.json => none
run g.json --blocks f.blocks => f.blocks, run g.json
run --blocks f.blocks g.json --log => f.blocks, run g.json --log
run g.json --blocks=f.blocks --workers 2 => f.blocks, run g.json --workers 2
run --workers --blocks g.json --blocks f => f, run --workers --blocks g.json
run --claims --blocks --blocks f => f, run --claims --blocks
run --claims=300000 --blocks f g.json => f, run --claims=300000 g.json
run --blocks f --blocks g => f, run --blocks g
run --blocks => none
run --blocks --log g.json => none
run --blocks= g.json => none
run --blocks - g.json => -, run g.json
run --blocks=-f g.json => -f, run g.json
run -- --blocks f => none
run g.json --log -- --blocks f => none
audit g.json run.log --blocks f => f, audit g.json run.log
make 7 --blocks f => none";

/// Files of formulas, a line after each `|`, and what they add to `least`.
const FILES: &str = "twice = a * 2 => ok, 2 blocks
# only a comment|| => ok, 1 blocks
twice = a * 2|half = a / 2 # cut toward zero => ok, 3 blocks
least = a => blocks: line 1: repeated name
f = a|f = b => blocks: line 2: repeated name
f = a||f = b|g = => blocks: line 4 column 4: no value
 2a = b => blocks: line 1 column 2: no name
f a = b => blocks: line 1 column 3: no =
f = a b => blocks: line 1 column 7: no sign
f = min(a) => blocks: line 1 column 10: min takes 2 values
f = a $ b => blocks: line 1 column 7: unknown character";

#[test]
fn command_lines(rt: HostRuntime) -> Result<(), Fail> {
    let alloc = rt.alloc();
    for line in COMMAND_LINES.lines() {
        let (given, wanted) = line.split_once(" => ").unwrap_or((line, ""));
        assert_eq!(rt; option_in(alloc, given)?.as_str(), wanted);
    }
    Ok(())
}

#[test]
fn files(rt: HostRuntime) -> Result<(), Fail> {
    let alloc = rt.alloc();
    for line in FILES.lines() {
        let (given, wanted) = line.split_once(" => ").unwrap_or((line, ""));
        let mut blocks = Blocks::new(alloc);
        let name = String::from_str(alloc, "least")?;
        assert!(rt; blocks.add(Block::new(name, least, Law::Least)).is_ok());
        assert_eq!(rt; added(alloc, &mut blocks, given)?.as_str(), wanted);
    }
    Ok(())
}

/// The file that the words of a line name, and the other words.
fn option_in(alloc: Global, line: &str) -> Result<String, AllocError> {
    let mut words = Vec::new(alloc);
    for word in line.split(' ') {
        words.push(String::from_str(alloc, word)?)?;
    }
    let Some(option) = blocks_option(alloc, words.as_slice())? else {
        return String::from_str(alloc, "none");
    };
    let mut text = String::from_str(alloc, option.file.as_str())?;
    text.push_str(",")?;
    for word in &option.words {
        text.push_str(" ")?;
        text.push_str(word.as_str())?;
    }
    Ok(text)
}

/// How many blocks there are with those of a file, or the line of its fault.
fn added(alloc: Global, blocks: &mut Blocks, lines: &str) -> Result<String, AllocError> {
    let mut file = String::new(alloc);
    for line in lines.split('|') {
        file.push_str(line)?;
        file.push_str("\n")?;
    }
    match add_formulas(alloc, blocks, file.as_str().as_bytes()) {
        Ok(()) => {
            let count = blocks.len();
            format!(in alloc; "ok, {count} blocks")
        }
        Err(fault) => {
            let line = format!(in alloc; "{fault}")?;
            String::from_str(alloc, line.as_str().trim_end())
        }
    }
}
