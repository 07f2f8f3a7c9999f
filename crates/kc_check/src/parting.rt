//! The form of a text, read line by line.

ghost use Rattle.std.specs.Prelude.{◌≡◌, ◌+◌, ◌++◌, ◌<◌, ◌≤◌, ◌^◌, List, [], ◌∷◌, All, IfErr, IfOk, length, map, replicate, vec_capacity};
ghost use Rattle.kc_script_bundle.specs.Script.{names_of, script_of};
ghost use Rattle.kc_script_bundle.specs.declared.bundle.TheConstants.{MOST_COMMANDS, MOST_THREADS};
ghost use Rattle.kc_script_bundle.specs.declared.operation.Command.{Command as Asked};
ghost use Rattle.kc_check.specs.Forms.{AllReplies, GoesOverLines, IsFormed, IsHeld, IsReply, flat, holds as any_held, just as just_bytes, place as any_place, replies_shapes, thread_shapes};
ghost use Rattle.kc_check.specs.Judged.{parts_of};
ghost use Rattle.kc_check.specs.Laid.{IsLine, ByteIsMissing};
ghost use Rattle.kc_check.specs.Parts.{IsThreadPlace, place_text, places_in};
ghost use Rattle.kc_check.specs.Reads.{FailsForm, FailsHowever, HaveNames, HaveSpace, IsEndOf, LacksHere, LacksReply};
ghost use Rattle.kc_check.specs.Replays.{commands_of};
ghost use Rattle.kc_check.specs.Walks.{lines_at, lines_in, now_of};
ghost use Rattle.kc_check.specs.declared.error.CheckError.TheVariants.{Fault};
ghost use Rattle.kc_check.specs.declared.error.CheckWhy.TheVariants.{Form};

use crate::check::Said;
use crate::error::{CheckError, CheckWhy};
use crate::lines::Rest;
use crate::reading::{is_held, is_reply_line, place_of};
use kc_history::Place;
use kc_script_bundle::{Bundle, Command};

// That the line of this number has not its shape.
fn misformed(line: u32) -> CheckError
    ensures { result ≡ Fault line (Form) }
{
    CheckError::Fault {
        line,
        why: CheckWhy::Form,
    }
}

// The next line, if it is the reply of a thread's command of a number.
fn read_reply<'a>(rest: &mut Rest<'a>, thread: u32, number: u32) -> Result<&'a [u8], CheckError>
    requires room { rest.old.number + length rest.old.bytes.now < 2 ^ 32 }
    ensures says { IfOk result (λ line. IsReply thread number line.now) }
    ensures next { IfOk result (λ line. rest.old.bytes.now ≡ line.now ++ rest.new.bytes.now) }
    ensures number { IfOk result (λ line. rest.new.number ≡ rest.old.number + 1) }
    ensures room { IfOk result (λ line. rest.new.number + length rest.new.bytes.now < 2 ^ 32) }
    ensures lacks { IfErr result (LacksReply thread number rest.old.bytes.now rest.old.number) }
{
    let at = rest.number;
    let Some(line) = rest.next_line() else {
        return Err(misformed(at));
    };
    if !is_reply_line(line, thread, number) {
        return Err(misformed(at));
    }
    Ok(line)
}

// The next line, if it names a place.
fn read_place(rest: &mut Rest, threads: &[Vec<Command>]) -> Result<Place, CheckError>
    requires few { length threads.now ≤ MOST_THREADS }
    requires short { All (λ v. length v.items ≤ MOST_COMMANDS) threads.now }
    requires room { rest.old.number + length rest.old.bytes.now < 2 ^ 32 }
    ensures is { IfOk result (λ p. IsThreadPlace (commands_of threads.now) p) }
    ensures next { IfOk result (λ p. rest.old.bytes.now ≡ place_text (commands_of threads.now) p ++ rest.new.bytes.now) }
    ensures number { IfOk result (λ p. rest.new.number ≡ rest.old.number + 1) }
    ensures room { IfOk result (λ p. rest.new.number + length rest.new.bytes.now < 2 ^ 32) }
    ensures lacks { IfErr result (LacksHere (commands_of threads.now) any_place rest.old.bytes.now rest.old.number) }
{
    let at = rest.number;
    let Some(line) = rest.next_line() else {
        return Err(misformed(at));
    };
    match place_of(line, threads) {
        Some(place) => Ok(place),
        None => Err(misformed(at)),
    }
}

// The next line, if it is the name and words behind it.
fn read_held<'a>(rest: &mut Rest<'a>, name: &[u8]) -> Result<&'a [u8], CheckError>
    requires name { ByteIsMissing 10 name.now }
    requires room { rest.old.number + length rest.old.bytes.now < 2 ^ 32 }
    ensures is { IfOk result (λ line. IsHeld name.now line.now) }
    ensures next { IfOk result (λ line. rest.old.bytes.now ≡ line.now ++ rest.new.bytes.now) }
    ensures number { IfOk result (λ line. rest.new.number ≡ rest.old.number + 1) }
    ensures room { IfOk result (λ line. rest.new.number + length rest.new.bytes.now < 2 ^ 32) }
    ensures lacks { IfErr result (LacksHere [] (any_held name.now) rest.old.bytes.now rest.old.number) }
{
    let at = rest.number;
    let Some(line) = rest.next_line() else {
        return Err(misformed(at));
    };
    if !is_held(line, name) {
        return Err(misformed(at));
    }
    Ok(line)
}

// The next line, which is to be this one.
fn read_just(rest: &mut Rest, wanted: &[u8]) -> Result<(), CheckError>
    requires wanted { IsLine wanted.now }
    requires room { rest.old.number + length rest.old.bytes.now < 2 ^ 32 }
    ensures next { IfOk result (λ _. rest.old.bytes.now ≡ wanted.now ++ rest.new.bytes.now) }
    ensures number { IfOk result (λ _. rest.new.number ≡ rest.old.number + 1) }
    ensures room { IfOk result (λ _. rest.new.number + length rest.new.bytes.now < 2 ^ 32) }
    ensures lacks { IfErr result (LacksHere [] (just_bytes wanted.now) rest.old.bytes.now rest.old.number) }
{
    let at = rest.number;
    match rest.next_line() {
        Some(line) => {
            if line != wanted {
                return Err(misformed(at));
            }
            Ok(())
        }
        None => Err(misformed(at)),
    }
}

// The reply lines of a thread that has so many commands; where they begin in the text goes into room that is there.
fn read_thread(
    rest: &mut Rest,
    text: &[u8],
    thread: u32,
    commands: usize,
    starts: &mut Vec<u32>,
) -> Result<(), CheckError>
    requires few { commands ≤ MOST_COMMANDS }
    requires empty { starts.old.items ≡ [] }
    requires space { commands ≤ vec_capacity starts.old }
    requires end { IsEndOf text.now rest.old.bytes.now }
    requires long { length text.now < 2 ^ 32 }
    requires room { rest.old.number + length rest.old.bytes.now < 2 ^ 32 }
    ensures goes { IfOk result (λ _. (threads : List (List Asked)) → GoesOverLines threads (thread_shapes thread 1 commands) rest.old.bytes.now rest.old.number (lines_at text.now starts.new.items) rest.new.bytes.now rest.new.number) }
    ensures end { IfOk result (λ _. IsEndOf text.now rest.new.bytes.now) }
    ensures room { IfOk result (λ _. rest.new.number + length rest.new.bytes.now < 2 ^ 32) }
    ensures fails { IfErr result (λ e. (threads : List (List Asked)) → FailsHowever threads (thread_shapes thread 1 commands) rest.old.bytes.now rest.old.number e) }
{
    for k in 0..commands {
        let start = text.len() - rest.bytes.len();
        read_reply(rest, thread, k as u32 + 1)?;
        starts.push_reserved(start as u32);
    }
    Ok(())
}

// The reply lines of all threads; where they begin in the text goes into room that is there.
fn read_threads(
    rest: &mut Rest,
    text: &[u8],
    threads: &[Vec<Command>],
    replies: &mut [Vec<u32>],
) -> Result<(), CheckError>
    requires end { IsEndOf text.now rest.old.bytes.now }
    requires long { length text.now < 2 ^ 32 }
    requires few { length threads.now ≤ MOST_THREADS }
    requires short { All (λ v. length v.items ≤ MOST_COMMANDS) threads.now }
    requires space { HaveSpace (commands_of threads.now) replies.old }
    requires room { rest.old.number + length rest.old.bytes.now < 2 ^ 32 }
    ensures goes { IfOk result (λ _. GoesOverLines (commands_of threads.now) (replies_shapes 1 (commands_of threads.now)) rest.old.bytes.now rest.old.number (flat (lines_in text.now replies.new)) rest.new.bytes.now rest.new.number) }
    ensures replies { IfOk result (λ _. AllReplies 1 (commands_of threads.now) (lines_in text.now replies.new)) }
    ensures size { length replies.new ≡ length replies.old }
    ensures room { IfOk result (λ _. rest.new.number + length rest.new.bytes.now < 2 ^ 32) }
    ensures fails { IfErr result (FailsHowever (commands_of threads.now) (replies_shapes 1 (commands_of threads.now)) rest.old.bytes.now rest.old.number) }
{
    for t in 0..threads.len() {
        let starts = &mut replies[t];
        read_thread(rest, text, t as u32 + 1, threads[t].len(), starts)?;
    }
    Ok(())
}

// So many places, into room that is there.
fn read_places(
    rest: &mut Rest,
    threads: &[Vec<Command>],
    count: usize,
    places: &mut Vec<Place>,
) -> Result<(), CheckError>
    requires few { length threads.now ≤ MOST_THREADS }
    requires short { All (λ v. length v.items ≤ MOST_COMMANDS) threads.now }
    requires empty { places.old.items ≡ [] }
    requires space { count ≤ vec_capacity places.old }
    requires room { rest.old.number + length rest.old.bytes.now < 2 ^ 32 }
    ensures goes { IfOk result (λ _. GoesOverLines (commands_of threads.now) (replicate count any_place) rest.old.bytes.now rest.old.number (map (place_text (commands_of threads.now)) places.new.items) rest.new.bytes.now rest.new.number) }
    ensures places { IfOk result (λ _. All (IsThreadPlace (commands_of threads.now)) places.new.items) }
    ensures count { IfOk result (λ _. length places.new.items ≡ count) }
    ensures room { IfOk result (λ _. rest.new.number + length rest.new.bytes.now < 2 ^ 32) }
    ensures fails { IfErr result (FailsHowever (commands_of threads.now) (replicate count any_place) rest.old.bytes.now rest.old.number) }
{
    for _ in 0..count {
        let place = read_place(rest, threads)?;
        places.push_reserved(place);
    }
    Ok(())
}

// The lines of the state, one for each object, into room that is there.
fn read_state<'a>(
    rest: &mut Rest<'a>,
    bundle: &Bundle,
    lines: &mut Vec<&'a [u8]>,
) -> Result<(), CheckError>
    requires names { HaveNames (names_of bundle.now.objects) }
    requires empty { lines.old.items ≡ [] }
    requires space { length (names_of bundle.now.objects) ≤ vec_capacity lines.old }
    requires room { rest.old.number + length rest.old.bytes.now < 2 ^ 32 }
    ensures goes { IfOk result (λ _. (threads : List (List Asked)) → GoesOverLines threads (map (λ entry. any_held entry.0) (names_of bundle.now.objects)) rest.old.bytes.now rest.old.number (now_of lines.new.items) rest.new.bytes.now rest.new.number) }
    ensures fails { IfErr result (λ e. (threads : List (List Asked)) → FailsHowever threads (map (λ entry. any_held entry.0) (names_of bundle.now.objects)) rest.old.bytes.now rest.old.number e) }
{
    for i in 0..bundle.objects.len() {
        let Some((name, _)) = bundle.objects.get_index(i) else {
            unreachable!("each index has an entry");
        };
        let line = read_held(rest, name.as_bytes())?;
        lines.push_reserved(line);
    }
    Ok(())
}

/// The parts of the text, if it has the form of the bundle's texts, into room that is there. It takes no memory.
pub(crate) fn read_text<'a>(
    bundle: &Bundle,
    count: usize,
    text: &'a [u8],
    said: &mut Said<'a>,
) -> Result<(), CheckError>
    requires few { length bundle.now.threads.items ≤ MOST_THREADS }
    requires short { All (λ v. length v.items ≤ MOST_COMMANDS) bundle.now.threads.items }
    requires names { HaveNames (names_of bundle.now.objects) }
    requires count { count ≡ places_in (script_of bundle.now).threads }
    requires replies { HaveSpace (script_of bundle.now).threads said.old.replies.items }
    requires places { (said.old.places.items ≡ []) × (count ≤ vec_capacity said.old.places) }
    requires state { (said.old.state.items ≡ []) × (length (names_of bundle.now.objects) ≤ vec_capacity said.old.state) }
    requires long { length text.now + 1 < 2 ^ 32 }
    ensures formed { IfOk result (λ _. IsFormed (script_of bundle.now) text.now (parts_of text.now said.new.replies.items said.new.places.items said.new.state.items)) }
    ensures misformed { IfErr result (FailsForm (script_of bundle.now) text.now) }
{
    let mut rest = Rest {
        bytes: text,
        number: 1,
    };
    read_threads(&mut rest, text, &bundle.threads, &mut said.replies)?;
    read_just(&mut rest, b"order\n".as_slice())?;
    read_places(&mut rest, &bundle.threads, count, &mut said.places)?;
    read_just(&mut rest, b"state\n".as_slice())?;
    read_state(&mut rest, bundle, &mut said.state)?;
    if rest.bytes.len() != 0 {
        return Err(misformed(rest.number));
    }
    Ok(())
}
