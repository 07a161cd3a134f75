//! Lines of words with the orders that they give, worked out by hand.

use pt_words::order;
use std::alloc::{AllocError, Global};
use std::test::Fail;

/// Lines of words, each with the order that it gives, or none. A single space separates words: what two spaces enclose is an empty word.
/// `tools/test-clocks.sh` refuses more values of clocks.
const CASES: &str =
    r#"run g.json => Some(Over { command: Run { workers: 4, clock: Paced, log: false }, graph: GraphFile { name: "g.json", claims: 200000 } })
run -- g.json => Some(Over { command: Run { workers: 4, clock: Paced, log: false }, graph: GraphFile { name: "g.json", claims: 200000 } })
run g.json -- => Some(Over { command: Run { workers: 4, clock: Paced, log: false }, graph: GraphFile { name: "g.json", claims: 200000 } })
run --workers 4 g.json => Some(Over { command: Run { workers: 4, clock: Paced, log: false }, graph: GraphFile { name: "g.json", claims: 200000 } })
run g.json --workers=4 => Some(Over { command: Run { workers: 4, clock: Paced, log: false }, graph: GraphFile { name: "g.json", claims: 200000 } })
run --clock paced g.json => Some(Over { command: Run { workers: 4, clock: Paced, log: false }, graph: GraphFile { name: "g.json", claims: 200000 } })
run --workers=4 --clock=paced -- g.json => Some(Over { command: Run { workers: 4, clock: Paced, log: false }, graph: GraphFile { name: "g.json", claims: 200000 } })
run g.json --clock paced --workers 4 -- => Some(Over { command: Run { workers: 4, clock: Paced, log: false }, graph: GraphFile { name: "g.json", claims: 200000 } })
run --workers=2 -- g.json => Some(Over { command: Run { workers: 2, clock: Paced, log: false }, graph: GraphFile { name: "g.json", claims: 200000 } })
run --workers 64 - => Some(Over { command: Run { workers: 64, clock: Paced, log: false }, graph: GraphFile { name: "-", claims: 200000 } })
run --workers 9 -- --workers=3 => Some(Over { command: Run { workers: 9, clock: Paced, log: false }, graph: GraphFile { name: "--workers=3", claims: 200000 } })
run -- --log => Some(Over { command: Run { workers: 4, clock: Paced, log: false }, graph: GraphFile { name: "--log", claims: 200000 } })
run --log g.json => Some(Over { command: Run { workers: 4, clock: Paced, log: true }, graph: GraphFile { name: "g.json", claims: 200000 } })
run g.json --log => Some(Over { command: Run { workers: 4, clock: Paced, log: true }, graph: GraphFile { name: "g.json", claims: 200000 } })
run g.json --log --workers 3 => Some(Over { command: Run { workers: 3, clock: Paced, log: true }, graph: GraphFile { name: "g.json", claims: 200000 } })
run --workers 3 --log -- g.json => Some(Over { command: Run { workers: 3, clock: Paced, log: true }, graph: GraphFile { name: "g.json", claims: 200000 } })
run --clock paced --log g.json --workers 2 => Some(Over { command: Run { workers: 2, clock: Paced, log: true }, graph: GraphFile { name: "g.json", claims: 200000 } })
run g.json --workers=2 --log --clock=paced => Some(Over { command: Run { workers: 2, clock: Paced, log: true }, graph: GraphFile { name: "g.json", claims: 200000 } })
run g.json --workers=2 --log --clock=machine => Some(Over { command: Run { workers: 2, clock: Machine, log: true }, graph: GraphFile { name: "g.json", claims: 200000 } })
run g.json --workers=2 --log --clock=step:0:1 => Some(Over { command: Run { workers: 2, clock: Step { start: 0, step: 1 }, log: true }, graph: GraphFile { name: "g.json", claims: 200000 } })
run --clock step:7:250 --log g.json --workers 2 => Some(Over { command: Run { workers: 2, clock: Step { start: 7, step: 250 }, log: true }, graph: GraphFile { name: "g.json", claims: 200000 } })
run g.json --workers=2 --log --clock=step:7:250 => Some(Over { command: Run { workers: 2, clock: Step { start: 7, step: 250 }, log: true }, graph: GraphFile { name: "g.json", claims: 200000 } })
run g.json --workers=2 --log --clock=step:250:7 => Some(Over { command: Run { workers: 2, clock: Step { start: 250, step: 7 }, log: true }, graph: GraphFile { name: "g.json", claims: 200000 } })
run g.json --workers=2 --log --clock=step:1000000000000000:1 => Some(Over { command: Run { workers: 2, clock: Step { start: 1000000000000000, step: 1 }, log: true }, graph: GraphFile { name: "g.json", claims: 200000 } })
run g.json --workers=2 --log --clock=step:0:1000000000000000 => Some(Over { command: Run { workers: 2, clock: Step { start: 0, step: 1000000000000000 }, log: true }, graph: GraphFile { name: "g.json", claims: 200000 } })
check -- -- => Some(Over { command: Check, graph: GraphFile { name: "--", claims: 200000 } })
check a=b => Some(Over { command: Check, graph: GraphFile { name: "a=b", claims: 200000 } })
meaning g.json => Some(Over { command: Meaning, graph: GraphFile { name: "g.json", claims: 200000 } })
slacks g.json => Some(Over { command: Slacks, graph: GraphFile { name: "g.json", claims: 200000 } })
migrate g.json => Some(Migrate { graph: GraphFile { name: "g.json", claims: 200000 } })
make 7 => Some(Make { number: 7, workers: 4 })
make --workers=1 100 => Some(Make { number: 100, workers: 1 })
make --workers 64 -- 1 => Some(Make { number: 1, workers: 64 })
audit g.json log.txt => Some(Audit { graph: GraphFile { name: "g.json", claims: 200000 }, log: "log.txt" })
audit -- g.json --log => Some(Audit { graph: GraphFile { name: "g.json", claims: 200000 }, log: "--log" })
audit g.json g.json => Some(Audit { graph: GraphFile { name: "g.json", claims: 200000 }, log: "g.json" })
replay g.json air.csv => Some(Replay { graph: GraphFile { name: "g.json", claims: 200000 }, air: "air.csv", workers: 4, log: false })
replay --log g.json air.csv => Some(Replay { graph: GraphFile { name: "g.json", claims: 200000 }, air: "air.csv", workers: 4, log: true })
replay g.json --workers=2 air.csv --log => Some(Replay { graph: GraphFile { name: "g.json", claims: 200000 }, air: "air.csv", workers: 2, log: true })
replay -- g.json --log => Some(Replay { graph: GraphFile { name: "g.json", claims: 200000 }, air: "--log", workers: 4, log: false })
run g.json --claims 250000 => Some(Over { command: Run { workers: 4, clock: Paced, log: false }, graph: GraphFile { name: "g.json", claims: 250000 } })
run --claims=250000 g.json => Some(Over { command: Run { workers: 4, clock: Paced, log: false }, graph: GraphFile { name: "g.json", claims: 250000 } })
run g.json --claims 200000 => Some(Over { command: Run { workers: 4, clock: Paced, log: false }, graph: GraphFile { name: "g.json", claims: 200000 } })
run --claims=100000000 g.json => Some(Over { command: Run { workers: 4, clock: Paced, log: false }, graph: GraphFile { name: "g.json", claims: 100000000 } })
run --claims 100000000 --log --workers=2 g.json --clock machine => Some(Over { command: Run { workers: 2, clock: Machine, log: true }, graph: GraphFile { name: "g.json", claims: 100000000 } })
run --claims=250000 -- --claims=300000 => Some(Over { command: Run { workers: 4, clock: Paced, log: false }, graph: GraphFile { name: "--claims=300000", claims: 250000 } })
run -- --claims => Some(Over { command: Run { workers: 4, clock: Paced, log: false }, graph: GraphFile { name: "--claims", claims: 200000 } })
check -- --claims=250000 => Some(Over { command: Check, graph: GraphFile { name: "--claims=250000", claims: 200000 } })
meaning g.json --claims 250000 => Some(Over { command: Meaning, graph: GraphFile { name: "g.json", claims: 250000 } })
meaning --claims=100000000 g.json => Some(Over { command: Meaning, graph: GraphFile { name: "g.json", claims: 100000000 } })
audit --claims 250000 g.json log.txt => Some(Audit { graph: GraphFile { name: "g.json", claims: 250000 }, log: "log.txt" })
audit g.json --claims=100000000 log.txt => Some(Audit { graph: GraphFile { name: "g.json", claims: 100000000 }, log: "log.txt" })
audit g.json log.txt --claims 200000 => Some(Audit { graph: GraphFile { name: "g.json", claims: 200000 }, log: "log.txt" })
audit -- g.json --claims => Some(Audit { graph: GraphFile { name: "g.json", claims: 200000 }, log: "--claims" })
replay --claims 250000 g.json air.csv => Some(Replay { graph: GraphFile { name: "g.json", claims: 250000 }, air: "air.csv", workers: 4, log: false })
replay g.json --claims=100000000 air.csv --log --workers 2 => Some(Replay { graph: GraphFile { name: "g.json", claims: 100000000 }, air: "air.csv", workers: 2, log: true })
replay -- g.json --claims=250000 => Some(Replay { graph: GraphFile { name: "g.json", claims: 200000 }, air: "--claims=250000", workers: 4, log: false })
 => None
run => None
Run g.json => None
make => None
make 0 => None
make 07 => None
make 101 => None
make g.json => None
make 7 --log => None
make 7 --clock paced => None
make 7 --clock=step:0:1 => None
make 7 --workers 0 => None
run a b => None
run  => None
run --  => None
run -x => None
run -- => None
run g.json -- -- => None
run g.json --workers => None
run g.json --workers 0 => None
run g.json --workers 65 => None
run g.json --workers=02 => None
run g.json --workers=+2 => None
run g.json --workers=-1 => None
run g.json --workers -1 => None
run g.json --workers= => None
run g.json --workers   => None
run g.json --workers=1=2 => None
run g.json --workers=18446744073709551617 => None
run g.json --workers -- 4 => None
run g.json --workers --log => None
run g.json --workers 2 --workers=2 => None
run g.json --worker 2 => None
run g.json --log --log => None
run g.json --log= => None
run g.json --log=x => None
run --log --log=1 g.json => None
run --log => None
run g.json --Log => None
run g.json --lo => None
run g.json --clock=Paced => None
run g.json --clock => None
run g.json --clock paced --clock paced => None
run g.json --clock machine --clock=step:0:1 => None
check g.json --clock machine => None
check g.json --workers 2 => None
check g.json --help => None
check g.json --log => None
meaning --log g.json => None
meaning -- --clock=paced g.json => None
audit => None
audit g.json => None
audit g.json  => None
audit  log.txt => None
audit g.json log.txt more => None
audit g.json log.txt --log => None
audit --workers 2 g.json log.txt => None
audit g.json --clock=paced log.txt => None
replay => None
replay g.json => None
replay g.json  => None
replay  air.csv => None
replay g.json air.csv more => None
replay g.json air.csv --clock paced => None
replay g.json air.csv --log --log => None
replay g.json air.csv --workers 0 => None
replay g.json --workers air.csv => None
run -- -- --clock => None
run --clock= g.json => None
run g.json --clock  => None
run --clock=paced:0:1 g.json => None
run --clock=Machine g.json => None
run --clock=machines g.json => None
run --clock=machine:0:1 g.json => None
run --clock=Step:0:1 g.json => None
run --clock=steps:0:1 g.json => None
run --clock=ste:0:1 g.json => None
run --clock=:0:1 g.json => None
run --clock=step:: g.json => None
run --clock=step:1 g.json => None
run --clock=step:1: g.json => None
run --clock=step:1:1: g.json => None
run --clock=step:1:1:1 g.json => None
run g.json --clock step:1:1:1 => None
run --clock=step::1:1 g.json => None
run --clock=step:1:0 g.json => None
run g.json --clock step:1:0 => None
run --clock=step:1:00 g.json => None
run --clock=step:1:01 g.json => None
run --clock=step:+1:1 g.json => None
run --clock=step:1:+1 g.json => None
run --clock=step:1:-1 g.json => None
run --clock=step:1:1000000000000001 g.json => None
run --clock=step:1:18446744073709551617 g.json => None
run --clock=step:a:1 g.json => None
run --clock=step:1:a g.json => None
run --clock=step:1_0:1 g.json => None
run --clock=step:1:1us g.json => None
run --clock=step=0:1 g.json => None
run --clock=step;0;1 g.json => None
run --clock=step,0,1 g.json => None
run g.json --claims => None
run --claims g.json => None
run --claims 250000 => None
run --claims=250000 => None
run g.json --claims 199999 => None
run --claims=199999 g.json => None
run g.json --claims 100000001 => None
run --claims=100000001 g.json => None
run g.json --claims 0 => None
run g.json --claims=0250000 => None
run g.json --claims 0200000 => None
run g.json --claims= => None
run g.json --claims  => None
run g.json --claims -250000 => None
run g.json --claims=-250000 => None
run g.json --claims=+250000 => None
run g.json --claims=250_000 => None
run g.json --claims=250000=1 => None
run g.json --claims=18446744073709801616 => None
run g.json --claims --log => None
run g.json --claims -- 250000 => None
run g.json --claims 250000 --claims=250000 => None
run --claims=200000 --claims=200000 g.json => None
run g.json --claim 250000 => None
run g.json --Claims 250000 => None
run g.json --claimss=250000 => None
run g.json -claims 250000 => None
make 7 --claims 250000 => None
make --claims=200000 7 => None
check g.json --claims 250000 => None
check --claims=200000 g.json => None
slacks g.json --claims 250000 => None
slacks --claims=200000 g.json => None
migrate g.json --claims 250000 => None
migrate --claims=200000 g.json => None
meaning g.json --claims => None
meaning g.json --claims 199999 => None
meaning --claims=100000001 g.json => None
meaning --claims=250000 --claims 250000 g.json => None
meaning g.json --claims 250000 --workers 2 => None
meaning g.json --claims 250000 --log => None
meaning -- --claims 250000 => None
audit g.json log.txt --claims => None
audit g.json --claims log.txt => None
audit g.json --claims 250000 => None
audit g.json log.txt --claims 199999 => None
audit --claims=100000001 g.json log.txt => None
audit g.json log.txt --claims=250000 --claims=250000 => None
audit g.json log.txt --claims=250000 --log => None
replay g.json air.csv --claims => None
replay g.json --claims air.csv => None
replay g.json air.csv --claims=199999 => None
replay --claims 100000001 g.json air.csv => None
replay g.json air.csv --claims 250000 --claims 250000 => None
replay g.json air.csv --claims 250000 --clock paced => None
--claims 250000 run g.json => None"#;

/// The words of a line.
fn words(alloc: Global, line: &str) -> Result<Vec<String>, AllocError> {
    let mut words = Vec::new(alloc);
    for word in line.split(' ') {
        words.push(String::from_str(alloc, word)?)?;
    }
    Ok(words)
}

#[test]
fn each_line_gives_its_order(rt: HostRuntime) -> Result<(), Fail> {
    let alloc = rt.alloc();
    for case in CASES.split('\n') {
        let (line, wanted) = case.split_once(" => ").ok_or("no arrow")?;
        let words = words(alloc, line)?;
        let found = format!(in alloc; "{:?}", order(alloc, words.as_slice())?)?;
        assert!(rt; found.as_str() == wanted, "{line}: {found}");
    }
    assert!(rt; order(alloc, &[])?.is_none());
    Ok(())
}
