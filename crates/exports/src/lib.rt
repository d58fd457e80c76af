// The doors for other languages. A slice is a pointer and a length; the reply's numbers go into lent places.
#![tactic(auto)]

ghost use Rattle.std.specs.Prelude.{◌≡◌, ◌++◌, ◌≤◌, length, drop};
ghost use Rattle.meaning.specs.Doors.{step_reply, step_space, outlook_reply, outlook_space, why_reply, why_space};
ghost use Rattle.meaning.specs.Desk.{desk_output};
ghost use Rattle.meaning.specs.Clerk.{why_output, card_output, outlook_output, check_output, blank_output};
ghost use Rattle.reply.specs.Answers.{as_reply};
ghost use Rattle.desk_rooms.specs.Rooms.{desk_room, why_room, card_room, named_room, check_room};
ghost use Rattle.exports.specs.Exports.{numbers, with_places, number_told, places_told, with_room};

use reply::Reply;

// What is returned where there are too few places.
const ROOM: u64 = reply::ROOM as u64;

// Puts the numbers of a reply into the first five places, and tells the first.
fn tell(told: Reply, reply: &mut [u64]) -> u64
    requires { 5 ≤ length reply.old }
    ensures answer { result ≡ told.number }
    ensures places { reply.new ≡ numbers told ++ drop 5 reply.old }
{
    let number = told.number as u64;
    reply[0] = number;
    reply[1] = told.paper as u64;
    reply[2] = told.line as u64;
    reply[3] = told.count as u64;
    reply[4] = told.tasks as u64;
    number
}

// The step. Where `reply` has fewer than five places nothing is touched and 9 is returned.
#[unsafe(no_mangle)]
pub extern "C" fn reambodkin_step<'a>(
    sheet: &[u8],
    card: &'a [u8],
    event: &'a [u8],
    out: &mut [u8],
    reply: &mut [u64],
) -> u64
    ensures answer { result ≡ number_told reply.old (as_reply
        (step_reply sheet.now card.now event.now (length out.old))) }
    ensures places { reply.new
        ≡ places_told reply.old (as_reply (step_reply sheet.now card.now event.now (length out.old))) }
    ensures space { out.new
        ≡ with_places reply.old (step_space sheet.now card.now event.now out.old) out.old }
{
    if reply.len() < 5 {
        return ROOM;
    }
    let told = reambodkin::step(sheet, card, event, out);
    tell(told, reply)
}

// The outlook, likewise.
#[unsafe(no_mangle)]
pub extern "C" fn reambodkin_outlook(
    sheet: &[u8],
    card: &[u8],
    event: &[u8],
    out: &mut [u32],
    reply: &mut [u64],
) -> u64
    ensures answer { result ≡ number_told reply.old (as_reply
        (outlook_reply sheet.now card.now event.now (length out.old))) }
    ensures places { reply.new
        ≡ places_told reply.old (as_reply (outlook_reply sheet.now card.now event.now (length out.old))) }
    ensures space { out.new
        ≡ with_places reply.old (outlook_space sheet.now card.now event.now out.old) out.old }
{
    if reply.len() < 5 {
        return ROOM;
    }
    let told = reambodkin::outlook(sheet, card, event, out);
    tell(told, reply)
}

// Why, likewise.
#[unsafe(no_mangle)]
pub extern "C" fn reambodkin_why(
    sheet: &[u8],
    card: &[u8],
    event: &[u8],
    out: &mut [u32],
    reply: &mut [u64],
) -> u64
    ensures answer { result ≡ number_told reply.old (as_reply
        (why_reply sheet.now card.now event.now (length out.old))) }
    ensures places { reply.new
        ≡ places_told reply.old (as_reply (why_reply sheet.now card.now event.now (length out.old))) }
    ensures space { out.new
        ≡ with_places reply.old (why_space sheet.now card.now event.now out.old) out.old }
{
    if reply.len() < 5 {
        return ROOM;
    }
    let told = reambodkin::why(sheet, card, event, out);
    tell(told, reply)
}

// What the desk program prints for its input, at the start of `out`, and how long it is. Where `out` has fewer than `desk_rooms::DESK` bytes
// nothing is touched and 0 is returned.
#[unsafe(no_mangle)]
pub extern "C" fn reambodkin_desk(input: &[u8], out: &mut [u8]) -> usize
    ensures answer { result ≡ with_room desk_room out.old (length (desk_output input.now)) 0 }
    ensures space { out.new
        ≡ with_room desk_room out.old (desk_output input.now ++ drop (length (desk_output input.now)) out.old)
        out.old }
{
    if out.len() < desk_rooms::DESK {
        return 0;
    }
    desk_output::desk_output(input, out)
}

// What the clerk's program prints with the word `why`, likewise; here fewer than `desk_rooms::WHY` bytes are too few.
#[unsafe(no_mangle)]
pub extern "C" fn reambodkin_clerk_why(input: &[u8], out: &mut [u8]) -> usize
    ensures answer { result ≡ with_room why_room out.old (length (why_output input.now)) 0 }
    ensures space { out.new
        ≡ with_room why_room out.old (why_output input.now ++ drop (length (why_output input.now)) out.old)
        out.old }
{
    if out.len() < desk_rooms::WHY {
        return 0;
    }
    clerk_why::why_output(input, out)
}

// The same with the word `card`; here `desk_rooms::CARD` bytes are enough.
#[unsafe(no_mangle)]
pub extern "C" fn reambodkin_clerk_card(input: &[u8], out: &mut [u8]) -> usize
    ensures answer { result ≡ with_room card_room out.old (length (card_output input.now)) 0 }
    ensures space { out.new
        ≡ with_room card_room out.old (card_output input.now ++ drop (length (card_output input.now)) out.old)
        out.old }
{
    if out.len() < desk_rooms::CARD {
        return 0;
    }
    clerk_card::card_output(input, out)
}

// With the word `outlook`; here fewer than `desk_rooms::NAMED` bytes are too few.
#[unsafe(no_mangle)]
pub extern "C" fn reambodkin_clerk_outlook(input: &[u8], out: &mut [u8]) -> usize
    ensures answer { result ≡ with_room named_room out.old (length (outlook_output input.now)) 0 }
    ensures space { out.new
        ≡ with_room named_room out.old (outlook_output input.now ++ drop (length (outlook_output input.now)) out.old)
        out.old }
{
    if out.len() < desk_rooms::NAMED {
        return 0;
    }
    clerk_outlook::outlook_output(input, out)
}

// With the word `check`, for a sheet alone; here `desk_rooms::CHECK` bytes are enough.
#[unsafe(no_mangle)]
pub extern "C" fn reambodkin_clerk_check(input: &[u8], out: &mut [u8]) -> usize
    ensures answer { result ≡ with_room check_room out.old (length (check_output input.now)) 0 }
    ensures space { out.new
        ≡ with_room check_room out.old (check_output input.now ++ drop (length (check_output input.now)) out.old)
        out.old }
{
    if out.len() < desk_rooms::CHECK {
        return 0;
    }
    clerk_check::check_output(input, out)
}

// With the word `blank`, for a sheet alone; here `desk_rooms::CARD` bytes are enough.
#[unsafe(no_mangle)]
pub extern "C" fn reambodkin_clerk_blank(input: &[u8], out: &mut [u8]) -> usize
    ensures answer { result ≡ with_room card_room out.old (length (blank_output input.now)) 0 }
    ensures space { out.new
        ≡ with_room card_room out.old (blank_output input.now ++ drop (length (blank_output input.now)) out.old)
        out.old }
{
    if out.len() < desk_rooms::CARD {
        return 0;
    }
    clerk_check::blank_output(input, out)
}
