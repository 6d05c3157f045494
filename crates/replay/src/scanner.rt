// Reads a replay list, whose form stands at the head of the program.
use parts::split_number;
use tables::ModuleIdx;

// The text that is still to be read.
#[derive(Drop)]
pub struct Scanner<'a> {
    text: &'a [u8],
}

// Values of a list that are still to be taken.
#[derive(Clone, Copy)]
struct Run {
    // How many. One that is taken of none leaves 2^32 - 1.
    left: u32,
    // The next of them; none where those stay that stand there.
    value: Option<u32>,
    // By how much the one behind it differs.
    step: u32,
    // How many are equal, and how many of the next one's are left.
    each: u32,
    turn: u32,
}

impl Run {
    // A run of one value.
    const ONE: Run = Run {
        left: 1,
        value: Some(0),
        step: 0,
        each: 1,
        turn: 1,
    };

    // The next value, which is then taken.
    fn take(&mut self) -> Option<u32> {
        let value = self.value;
        self.left = self.left.wrapping_sub(1);
        if 1 < self.turn {
            self.turn -= 1;
        } else {
            self.turn = self.each;
            self.value = value.map(|value| value.wrapping_add(self.step));
        }
        value
    }
}

impl<'a> Scanner<'a> {
    // A scanner at the start of a text.
    pub(crate) fn new(text: &'a [u8]) -> Self {
        Scanner { text }
    }

    // Passes the bytes up to the space, control characters too, which is more than `trim_ascii_start` passes.
    fn skip(&mut self) {
        let text = self.text;
        let start = text.iter().position(|byte| b' ' < *byte);
        self.text = text.split_at(start.unwrap_or(text.len())).1;
    }

    // The line that begins next.
    pub(crate) fn line(&mut self) -> &'a [u8] {
        self.skip();
        let text = self.text;
        let end = text.iter().position(|byte| *byte == b'\n');
        let (line, rest) = text.split_at(end.unwrap_or(text.len()));
        self.text = rest;
        line
    }

    // Whether this byte comes next, which is then passed.
    fn passes(&mut self, byte: u8) -> bool {
        match self.text.split_first() {
            Some((first, rest)) if *first == byte => {
                self.text = rest;
                true
            }
            _ => false,
        }
    }

    // The next number; `-` is the missing mark, as a column holds it.
    pub(crate) fn number(&mut self) -> u32 {
        self.skip();
        if self.passes(b'-') {
            return ModuleIdx::MISSING;
        }
        let (value, rest) = split_number(self.text);
        self.text = rest;
        value
    }

    // The number behind this byte where it comes next, else another.
    fn number_behind(&mut self, byte: u8, other: u32) -> u32 {
        if self.passes(byte) {
            return self.number();
        }
        other
    }

    // The next run: `TIMES*..`, `TIMES.`, or a value.
    fn run(&mut self) -> Run {
        let first = self.number();
        if self.passes(b'*') {
            let value = Some(self.number());
            let up = self.number_behind(b'+', 0);
            let down = self.number_behind(b'~', 0);
            let each = self.number_behind(b'/', 1);
            return Run {
                left: first,
                value,
                step: up.wrapping_sub(down),
                each,
                turn: each,
            };
        }
        if self.passes(b'.') {
            return Run {
                left: first,
                value: None,
                ..Run::ONE
            };
        }
        Run {
            value: Some(first),
            ..Run::ONE
        }
    }

    // The next value of a list: of the run at hand, or of the one behind it where none is left.
    fn value(&mut self, run: &mut Run) -> Option<u32> {
        if run.left == 0 {
            *run = self.run();
        }
        run.take()
    }

    // Reads values over all that stand in a list.
    fn fill(&mut self, list: &mut [u32]) {
        let mut run = Run {
            left: 0,
            ..Run::ONE
        };
        for place in list.iter_mut() {
            *place = self.value(&mut run).unwrap_or(*place);
        }
    }

    // The next values, as many as there are places; of those that stay, 0.
    pub(crate) fn values<const N: usize>(&mut self) -> [u32; N] {
        let mut values = [0; N];
        self.fill(&mut values);
        values
    }

    // Reads a list, its length first, over what stands in a room, as far as that has places.
    pub(crate) fn list<'b>(&mut self, room: &'b mut [u32]) -> &'b [u32] {
        let length = room.len().min(self.number() as usize);
        let list = &mut room[..length];
        self.fill(list);
        list
    }

    // The same of bytes, 255 for what is larger.
    pub(crate) fn bytes<'b>(&mut self, room: &'b mut [u8]) -> &'b [u8] {
        let length = room.len().min(self.number() as usize);
        let bytes = &mut room[..length];
        let mut run = Run {
            left: 0,
            ..Run::ONE
        };
        for place in bytes.iter_mut() {
            if let Some(value) = self.value(&mut run) {
                *place = value.min(255) as u8;
            }
        }
        bytes
    }

    // Where an output differs first from what the list says of it: what is written, and else the filler.
    pub(crate) fn difference(
        &mut self,
        output: &[u32; crate::PLACES],
        filler: u32,
    ) -> Option<usize> {
        let mut said = [filler; crate::PLACES];
        self.list(&mut said);
        output
            .iter()
            .zip(&said)
            .position(|(given, said)| given != said)
    }
}
