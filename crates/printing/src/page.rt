// A lent buffer, and where the next byte is put. Not a Display of an answer: what is put is promised byte for byte, also into a buffer that
// is too short for it, and Display promises nothing of what it writes.
ghost use Rattle.std.specs.Prelude.{◌≡◌, ◌≤◌, length};

use reader::Answer;
use spans::Spans;

// The most decimal digits of a number of 64 bits.
const DIGITS: usize = 20;

#[derive(Drop)]
pub struct Page<'a> {
    pub out: &'a mut [u8],
    pub at: usize,
    ghost within: { at ≤ length out.now },
}

impl Page<'_> {
    ghost use Rattle.printing.specs.Page.{Gets};
    ghost use Rattle.printing.specs.Text.{decimal, keyed, field, variable, variables, refusal, printed};

    fn text(&mut self, t: &[u8])
        ensures { Gets self.old self.new t.now }
    {
        self.at = lines::keep(self.out, self.at, t, 0, t.len());
    }

    fn number(&mut self, n: u32)
        ensures { Gets self.old self.new (decimal n) }
    {
        let mut digits = [0u8; DIGITS];
        let k = io::decimal(u64::from(n), &mut digits);
        self.text(&digits[..k]);
    }

    fn keyed(&mut self, key: &[u8], n: u32)
        ensures { Gets self.old self.new (keyed key.now n) }
    {
        self.text(key);
        self.number(n);
    }

    fn field(&mut self, key: &[u8], n: u32)
        ensures { Gets self.old self.new (field key.now n) }
    {
        self.keyed(key, n);
        self.text(b"\n");
    }

    fn variable(&mut self, k: u32, i: u32, s: u32, e: u32)
        ensures { Gets self.old self.new (variable k i s e) }
    {
        if k < i {
            return;
        }
        self.keyed(b"v", i);
        self.keyed(b"=", s);
        self.field(b",", e);
    }

    // One by one, as a set of spans has them: an array of pairs to loop over would be no shorter.
    fn variables(&mut self, k: u32, t: Spans)
        ensures { Gets self.old self.new (variables k t) }
    {
        self.variable(k, 1, t.s1, t.e1);
        self.variable(k, 2, t.s2, t.e2);
        self.variable(k, 3, t.s3, t.e3);
    }

    // Two numbers, as the answer has them: `printed` promises the bytes of any two.
    fn refusal(&mut self, number: u32, place: u32)
        ensures { Gets self.old self.new (refusal number place) }
    {
        self.text(b"answer=refused\n");
        self.field(b"code=", number);
        self.field(b"place=", place);
    }

    pub fn answer(&mut self, line: u32, k: u32, a: Answer)
        ensures { Gets self.old self.new (printed line k a) }
    {
        self.field(b"line=", line);
        match a {
            Answer::Reading { weight, spans } => {
                self.text(b"answer=found\n");
                self.field(b"weight=", weight.number);
                self.variables(k, spans);
            }
            Answer::NoReading => self.text(b"answer=none\n"),
            Answer::Refused { number, place } => self.refusal(number, place),
        }
    }
}
