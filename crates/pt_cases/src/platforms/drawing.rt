//! Graphs of random actors, with rows for their sensors.

use crate::files::Files;
use crate::platforms::random::Random;
use pt_types::{Row, RowAt};
use std::alloc::{AllocError, Global};

/// An output of an actor.
#[derive(Drop, Clone, Copy)]
struct Output {
    platform: u32,
    actor: u32,
    output: u32,
}

/// A graph as text, with the files and the rows of its sensors.
#[derive(Drop)]
pub struct Drawn {
    pub text: String,
    pub files: Files,
    pub rows: Vec<RowAt>,
}

/// What was drawn so far.
#[derive(Drop)]
struct Drawing {
    actors: String,
    wires: String,
    links: String,
    count: u32,
    outputs: Vec<Output>,
    senders: Vec<u32>,
    /// The inputs that a delay feeds at the end: platform and actor.
    open: Vec<(u32, u32)>,
    files: Files,
    rows: Vec<RowAt>,
}

impl Drawing {
    /// Adds an actor; gives its number.
    fn actor(&mut self, platform: u32, kind: &str, outputs: u32) -> Result<u32, AllocError> {
        let number = self.count;
        if number != 0 {
            self.actors.push_str(",")?;
        }
        write!(
            self.actors,
            "{{\"name\":\"a{number}\",\"platform\":\"p{platform}\",{kind}}}"
        )?;
        for output in 0..outputs {
            self.outputs.push(Output {
                platform,
                actor: number,
                output,
            })?;
        }
        self.count = number.saturating_add(1);
        Ok(number)
    }

    /// Adds an actor of a kind that was written for it; gives its number.
    fn actor_of(&mut self, platform: u32, kind: String, outputs: u32) -> Result<u32, AllocError> {
        let number = self.actor(platform, kind.as_str(), outputs);
        drop(kind);
        number
    }

    /// Adds a wire.
    fn wire(&mut self, from: u32, output: u32, to: u32, input: u32) -> Result<(), AllocError> {
        if !self.wires.is_empty() {
            self.wires.push_str(",")?;
        }
        write!(self.wires, "[\"a{from}\",{output},\"a{to}\",{input}]")
    }

    /// One of the first outputs of a platform.
    fn any(&self, platform: u32, among: usize, random: &mut Random) -> Option<Output> {
        let mut found = None;
        let mut count = 0u64;
        for output in self.outputs.as_slice().iter().take(among) {
            if output.platform == platform {
                count = count.saturating_add(1);
                if random.below(count) == 0 {
                    found = Some(*output);
                }
            }
        }
        found
    }

    /// Feeds the first inputs of an actor from outputs that were there before it.
    fn feed(
        &mut self,
        platform: u32,
        actor: u32,
        inputs: u32,
        among: usize,
        random: &mut Random,
    ) -> Result<(), AllocError> {
        for input in 0..inputs {
            if let Some(from) = self.any(platform, among, random) {
                self.wire(from.actor, from.output, actor, input)?;
            }
        }
        Ok(())
    }

    /// Adds a sensor with rows.
    fn sensor(
        &mut self,
        alloc: Global,
        platform: u32,
        random: &mut Random,
    ) -> Result<(), AllocError> {
        let number = self.count;
        let bound = random.below(25);
        let kind = format!(in alloc;
            "\"kind\":\"sensor\",\"file\":\"s{number}.csv\",\"bound\":{bound}"
        )?;
        self.actor_of(platform, kind, 1)?;
        let name = format!(in alloc; "s{number}.csv")?;
        let mut text = String::from_str(alloc, "time,seen,value\n")?;
        self.push_rows(&mut text, number, bound, random)?;
        self.files.give(name, text)
    }

    /// Adds rows of a sensor, and writes them to its file.
    fn push_rows(
        &mut self,
        text: &mut String,
        number: u32,
        bound: u64,
        random: &mut Random,
    ) -> Result<(), AllocError> {
        let mut time = 0u64;
        let mut seen = 0u64;
        for _ in 0..12 {
            time = time.saturating_add(1).saturating_add(random.below(60));
            seen = seen.max(time.saturating_add(random.below(bound.saturating_add(1))));
            let value = (random.below(200) & 0xff) as i64;
            write!(text, "{time},{seen},{value}\n")?;
            self.rows.push(RowAt {
                sensor: number,
                row: Row { time, seen, value },
            })?;
        }
        Ok(())
    }

    /// Adds an actor of any kind that has inputs and outputs.
    fn inner(
        &mut self,
        alloc: Global,
        platform: u32,
        random: &mut Random,
    ) -> Result<(), AllocError> {
        let among = self.outputs.len();
        let d = random.below(40);
        let (kind, inputs, outputs) = match random.below(11) {
            0 => ("\"kind\":\"add\"", 2, 1),
            1 => ("\"kind\":\"sub\"", 2, 1),
            2 => ("\"kind\":\"count\"", 1, 1),
            3 => ("\"kind\":\"sum\"", 1, 1),
            4 => ("\"kind\":\"latch\"", 2, 1),
            5 => ("\"kind\":\"lanes\",\"cells\":[1,2]", 3, 2),
            6 => ("\"kind\":\"lanes\",\"cells\":[1,1,1]", 3, 3),
            7 => (
                "\"kind\":\"machine\",\"start\":0,\"outputs\":2,\"rows\":[{\"state\":0,\"low\":-500,\"high\":90,\"next\":1,\"emit\":[0,5]},{\"state\":1,\"low\":-100,\"high\":900,\"next\":0,\"emit\":[1,3]}]",
                1,
                2,
            ),
            8 => ("\"kind\":\"merge\",\"n\":2", 1, 1),
            9 => ("\"kind\":\"above\",\"limit\":40", 1, 1),
            _ => ("", 1, 1),
        };
        if kind.is_empty() {
            let delay = format!(in alloc; "\"kind\":\"delay\",\"d\":{d}")?;
            let actor = self.actor_of(platform, delay, outputs)?;
            return self.feed(platform, actor, inputs, among, random);
        }
        let actor = self.actor(platform, kind, outputs)?;
        if inputs == 1 && kind.starts_with("\"kind\":\"merge\"") {
            self.open.push((platform, actor))?;
        }
        self.feed(platform, actor, inputs, among, random)
    }

    /// Feeds the second input of each merge by a delay, behind any output of its platform.
    fn close(&mut self, alloc: Global, random: &mut Random) -> Result<(), AllocError> {
        let open = Vec::from_slice(alloc, self.open.as_slice())?;
        self.open.clear();
        for at in open.as_slice() {
            let (platform, merge) = *at;
            self.close_one(alloc, platform, merge, random)?;
        }
        Ok(())
    }

    /// Feeds the second input of a merge.
    fn close_one(
        &mut self,
        alloc: Global,
        platform: u32,
        merge: u32,
        random: &mut Random,
    ) -> Result<(), AllocError> {
        let among = self.outputs.len();
        let d = random.below(40).saturating_add(15);
        let delay = format!(in alloc; "\"kind\":\"delay\",\"d\":{d}")?;
        let actor = self.actor_of(platform, delay, 1)?;
        self.feed(platform, actor, 1, among, random)?;
        self.wire(actor, 0, merge, 1)
    }

    /// Adds a receiver for each sender that has none.
    fn receive(
        &mut self,
        alloc: Global,
        platform: u32,
        random: &mut Random,
    ) -> Result<(), AllocError> {
        let senders = Vec::from_slice(alloc, self.senders.as_slice())?;
        self.senders.clear();
        for sender in senders.as_slice() {
            self.receive_from(*sender, platform, random)?;
        }
        Ok(())
    }

    /// Adds a receiver for a sender.
    fn receive_from(
        &mut self,
        sender: u32,
        platform: u32,
        random: &mut Random,
    ) -> Result<(), AllocError> {
        let actor = self.actor(platform, "\"kind\":\"receive\"", 1)?;
        let delay = random.below(20);
        if !self.links.is_empty() {
            self.links.push_str(",")?;
        }
        write!(
            self.links,
            "{{\"from\":\"a{sender}\",\"to\":\"a{actor}\",\"delay\":{delay}}}"
        )
    }

    /// Adds the actors of a platform, but for those that close its loops.
    fn platform(
        &mut self,
        alloc: Global,
        platform: u32,
        last: bool,
        random: &mut Random,
    ) -> Result<(), AllocError> {
        self.receive(alloc, platform, random)?;
        self.sensor(alloc, platform, random)?;
        if random.below(2) == 0 {
            self.sensor(alloc, platform, random)?;
        }
        if random.below(2) == 0 {
            self.every(alloc, platform, random)?;
        }
        for _ in 0..random.below(5).saturating_add(3) {
            self.inner(alloc, platform, random)?;
        }
        self.close(alloc, random)?;
        let among = self.outputs.len();
        if !last {
            self.send(alloc, platform, among, random)?;
        }
        let actor = self.actor(platform, "\"kind\":\"actuator\",\"slack\":20", 0)?;
        self.feed(platform, actor, 1, among, random)
    }

    /// Adds an `every`.
    fn every(
        &mut self,
        alloc: Global,
        platform: u32,
        random: &mut Random,
    ) -> Result<(), AllocError> {
        let (start, period) = (random.below(50), random.below(60).saturating_add(40));
        let kind = format!(in alloc; "\"kind\":\"every\",\"start\":{start},\"period\":{period}")?;
        self.actor_of(platform, kind, 1)?;
        Ok(())
    }

    /// Adds one or two senders.
    fn send(
        &mut self,
        alloc: Global,
        platform: u32,
        among: usize,
        random: &mut Random,
    ) -> Result<(), AllocError> {
        let slack = (platform as u64).saturating_add(1).saturating_mul(150);
        for _ in 0..random.below(2).saturating_add(1) {
            let kind = format!(in alloc; "\"kind\":\"send\",\"slack\":{slack}")?;
            let actor = self.actor_of(platform, kind, 0)?;
            self.feed(platform, actor, 1, among, random)?;
            self.senders.push(actor)?;
        }
        Ok(())
    }
}

impl Drawing {
    /// Draws both platforms; gives the text of the graph.
    fn text(&mut self, alloc: Global, random: &mut Random) -> Result<String, AllocError> {
        self.platform(alloc, 0, false, random)?;
        self.platform(alloc, 1, true, random)?;
        let (actors, wires) = (self.actors.as_str(), self.wires.as_str());
        let links = self.links.as_str();
        format!(in alloc;
            "{{\"ptides\":2,\"until\":500,\"clock_error\":3,\"clock_errors\":[],\"platforms\":[\"p0\",\"p1\"],\"actors\":[{actors}],\"wires\":[{wires}],\"links\":[{links}]}}"
        )
    }
}

/// A graph of two platforms.
pub fn draw(alloc: Global, random: &mut Random) -> Result<Drawn, AllocError> {
    let mut drawing = Drawing {
        actors: String::new(alloc),
        wires: String::new(alloc),
        links: String::new(alloc),
        count: 0,
        outputs: Vec::new(alloc),
        senders: Vec::new(alloc),
        open: Vec::new(alloc),
        files: Files::new(alloc),
        rows: Vec::new(alloc),
    };
    let text = drawing.text(alloc, random)?;
    let Drawing { files, rows, .. } = drawing;
    Ok(Drawn { text, files, rows })
}
