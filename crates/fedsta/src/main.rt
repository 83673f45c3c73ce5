// Writes the FEDSTA to the cover request with an identifier, from its standing answer in the FEDJEL on standard input: fedsta IDENTIFIER COVER
// DUPLICATE NUMBER TIME COUNT. The clearing day and the requests stand in the files `day` and `requests` of the folder where it runs. Refusals and
// wrong arguments go to standard error (02 #103).
#![tactic(auto)]

use console::fedjel::{LONGEST, MESSAGE, REQUESTS};
use console::{argument_count, number_of, put, read_argument, read_file, read_full, refuse, say};
use lent::Refusal;
use status::fedsta;
use status::reply::Particulars;

// What is asked for: which request, whether the bank has cover, the particulars, and how many items of the order were accepted.
#[derive(Clone, Copy)]
struct Wanted {
    id: [u8; 25],
    cover: bool,
    particulars: Particulars,
    count: u32,
}

impl Wanted {
    // The FEDSTA for a day, where there is one.
    fn written(
        self,
        day: Option<u32>,
        requests: &[u8],
        message: &[u8],
        out: &mut [u8; fedsta::BYTES],
    ) -> Result<(), Refusal> {
        fedsta::write(
            day.ok_or(Refusal::NotADay)?,
            requests,
            message,
            self.id,
            self.cover,
            self.particulars,
            self.count,
            out,
        )
    }

    // The FEDSTA is written, or refused.
    fn answered(self, rt: &HostRuntime, day: Option<u32>, requests: &[u8], message: &[u8]) {
        let mut out = [0u8; fedsta::BYTES];
        match self.written(day, requests, message, &mut out) {
            Ok(()) => put(rt, &out),
            Err(r) => refuse(&rt.stderr(), r),
        }
    }

    // The requests and the message are read; a longer message than is held isn't judged.
    fn answer(self, rt: &HostRuntime, requests: &mut [u8; REQUESTS], message: &mut [u8; MESSAGE]) {
        let day = console::fedjel::day(rt);
        let r = read_file(rt, "requests", requests);
        let n = read_full(&mut rt.stdin(), message);
        if n > LONGEST {
            console::fedjel::too_long(rt, b"fedsta");
            return;
        }
        self.answered(rt, day, &requests[..r], &message[..n]);
    }

    // In memory of its own.
    fn judged(self, rt: &HostRuntime) {
        let mut requests = [0u8; REQUESTS];
        let mut message = [0u8; MESSAGE];
        self.answer(rt, &mut requests, &mut message);
    }
}

// The arguments, as text.
#[derive(Clone, Copy)]
struct Words<'a> {
    id: &'a [u8],
    cover: &'a [u8],
    duplicate: &'a [u8],
    number: &'a [u8],
    time: &'a [u8],
    count: &'a [u8],
}

impl Words<'_> {
    // What they ask for, or what is wrong with one: 25 characters; yes or no; the particulars and the count, which are judged with the
    // message (refusal 8).
    fn wanted(self) -> Result<Wanted, &'static str> {
        let Ok(id) = <[u8; 25]>::try_from(self.id) else {
            return Err("IDENTIFIER is the 25 characters of a request");
        };
        let cover = match self.cover {
            b"yes" => true,
            b"no" => false,
            _ => return Err("COVER is yes or no"),
        };
        let [duplicate] = self.duplicate else {
            return Err("DUPLICATE is one character, 0 or @");
        };
        let particulars = Particulars {
            duplicate: *duplicate,
            number: number_of(self.number, 1, 4).ok_or("NUMBER is one to four digits")?,
            time: number_of(self.time, 6, 6).ok_or("TIME is six digits, hhmmss")?,
        };
        let count = number_of(self.count, 1, 6).ok_or(
            "COUNT is one to six digits, the accepted items of the order",
        )?;
        Ok(Wanted {
            id,
            cover,
            particulars,
            count,
        })
    }

    // It is judged; or what is wrong is said.
    fn asked(self, rt: &HostRuntime) {
        match self.wanted() {
            Ok(wanted) => wanted.judged(rt),
            Err(wrong) => {
                let _ = eprintln!(rt;
                    "fedsta: {wrong}. Usage: fedsta IDENTIFIER COVER DUPLICATE NUMBER TIME COUNT"
                );
            }
        }
    }
}

fn main(rt: HostRuntime) {
    if argument_count(&rt) != 7 {
        say(
            &rt,
            b"Usage: fedsta IDENTIFIER COVER DUPLICATE NUMBER TIME COUNT (25 characters; yes or no; 0 or @; ",
        );
        say(
            &rt,
            b"one to four digits; hhmmss; one to six digits), the FEDJEL on standard input\n",
        );
        return;
    }
    // An argument that is longer than its space counts as empty.
    let mut id = [0u8; 32];
    let mut cover = [0u8; 8];
    let mut duplicate = [0u8; 8];
    let mut number = [0u8; 8];
    let mut time = [0u8; 8];
    let mut count = [0u8; 8];
    let i = read_argument(&rt, 1, &mut id);
    let v = read_argument(&rt, 2, &mut cover);
    let d = read_argument(&rt, 3, &mut duplicate);
    let n = read_argument(&rt, 4, &mut number);
    let t = read_argument(&rt, 5, &mut time);
    let c = read_argument(&rt, 6, &mut count);
    let words = Words {
        id: &id[..i],
        cover: &cover[..v],
        duplicate: &duplicate[..d],
        number: &number[..n],
        time: &time[..t],
        count: &count[..c],
    };
    words.asked(&rt);
}
