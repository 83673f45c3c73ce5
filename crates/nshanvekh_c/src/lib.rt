// What a host in C links: the calls of `nshanvekh` under their own names, each with the same promise (include/nshanvekh.h says how C sees them).
#![tactic(auto)]

ghost use Rattle.std.specs.Prelude.{◌≡◌, []};
ghost use Rattle.lent.specs.Lent.{listed, lent};
ghost use Rattle.nshanvekh.specs.Covers.{FedjelAs, FedstaAs};
ghost use Rattle.nshanvekh.specs.Message.{JudgedNumbers, RepliedAs, StatusAs};
ghost use Rattle.nshanvekh.specs.Session.{ClosedAs, OpenedAs, PieceAs};
ghost use Rattle.single.specs.Numbers.{single_number};
ghost use Rattle.single.specs.Single.{single_answer};

// A session is opened for a clearing day and a code table.
#[unsafe(no_mangle)]
pub extern "C" fn nsh_open(day: u32, table: &[u8], session: &mut [u8]) -> u32
    ensures { OpenedAs day table.now session.old result session.new }
{
    nshanvekh::nsh_open(day, table, session)
}

// A piece of the message is taken.
#[unsafe(no_mangle)]
pub extern "C" fn nsh_piece(
    session: &mut [u8],
    bytes: &[u8],
    banks: &[u32],
    known: &[u8],
    barred: &[u32],
    table: &mut [u8],
) -> u32
    ensures { PieceAs session.old bytes.now (listed banks.now known.now barred.now)
        table.old result session.new table.new }
{
    nshanvekh::nsh_piece(session, bytes, banks, known, barred, table)
}

// The message is over.
#[unsafe(no_mangle)]
pub extern "C" fn nsh_close(session: &mut [u8], numbers: &mut [u64], id: &mut [u8]) -> u32
    ensures { ClosedAs session.old numbers.old id.old
        result session.new numbers.new id.new }
{
    nshanvekh::nsh_close(session, numbers, id)
}

// A whole message is judged.
#[unsafe(no_mangle)]
pub extern "C" fn nsh_judge(
    message: &[u8],
    day: u32,
    banks: &[u32],
    known: &[u8],
    barred: &[u32],
    table: &mut [u8],
    numbers: &mut [u64],
    id: &mut [u8],
) -> u32
    ensures { JudgedNumbers message.now (lent day banks.now known.now barred.now)
        table.old numbers.old id.old result table.new numbers.new id.new }
{
    nshanvekh::nsh_judge(message, day, banks, known, barred, table, numbers, id)
}

// A single head or item, without its ending, is judged.
#[unsafe(no_mangle)]
pub extern "C" fn nsh_single(
    x: &[u8],
    day: u32,
    banks: &[u32],
    known: &[u8],
    place: u32,
    kind: u32,
) -> u32
    ensures { result ≡ single_number (single_answer (lent day banks.now known.now []) kind place x.now) }
{
    nshanvekh::nsh_single(x, day, banks, known, place, kind)
}

// The reply to a whole message goes to the front of the output.
#[unsafe(no_mangle)]
pub extern "C" fn nsh_reply(
    message: &[u8],
    day: u32,
    banks: &[u32],
    known: &[u8],
    barred: &[u32],
    duplicate: u8,
    number: u32,
    time: u32,
    out: &mut [u8],
    numbers: &mut [u64],
) -> u32
    ensures { RepliedAs message.now (lent day banks.now known.now barred.now)
        duplicate number time out.old numbers.old result out.new numbers.new }
{
    nshanvekh::nsh_reply(
        message, day, banks, known, barred, duplicate, number, time, out, numbers,
    )
}

// A STATUS is read.
#[unsafe(no_mangle)]
pub extern "C" fn nsh_read_status(
    bytes: &[u8],
    table: &mut [u8],
    numbers: &mut [u64],
    id: &mut [u8],
) -> u32
    ensures { StatusAs bytes.now table.old numbers.old id.old
        result table.new numbers.new id.new }
{
    nshanvekh::nsh_read_status(bytes, table, numbers, id)
}

// A FEDJEL is judged, whole.
#[unsafe(no_mangle)]
pub extern "C" fn nsh_fedjel(
    message: &[u8],
    day: u32,
    requests: &[u8],
    table: &mut [u8],
    numbers: &mut [u64],
) -> u32
    ensures { FedjelAs message.now day requests.now table.old numbers.old
        result table.new numbers.new }
{
    nshanvekh::nsh_fedjel(message, day, requests, table, numbers)
}

// The FEDSTA of a request goes to the front of the output.
#[unsafe(no_mangle)]
pub extern "C" fn nsh_fedsta(
    message: &[u8],
    day: u32,
    requests: &[u8],
    id: &[u8],
    cover: u8,
    duplicate: u8,
    number: u32,
    time: u32,
    count: u32,
    out: &mut [u8],
) -> u32
    ensures { FedstaAs message.now day requests.now id.now cover duplicate number time count out.old
        result out.new }
{
    nshanvekh::nsh_fedsta(
        message, day, requests, id, cover, duplicate, number, time, count, out,
    )
}
