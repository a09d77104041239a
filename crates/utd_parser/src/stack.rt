// The forms to come, and how a token is taken over them.
ghost use Rattle.std.specs.Prelude.{◌≡◌, ◌+◌, ◌<◌, ℕ, List, ◌∷◌, [], ◌++◌, false, IfOk, IfSome, IsNone, length, true};
ghost use Rattle.utd_syntax.specs.Table as table;
ghost use Rattle.utd_syntax.specs.Verdict as verdict;
ghost use Rattle.utd_ranges.specs.Limits.{is_too_deep};
ghost use Rattle.value_core.specs.Limits.{most_levels, most_operators};
ghost use Rattle.utd_builder.specs.Closing.{closes};
ghost use Rattle.utd_parser.specs.Forms.{forms_of, taking_of};
ghost use Rattle.utd_parser.specs.Frames.{load_of, symbols_in, stack_of, symbols_of, passed, reach_of, Leaves};

use crate::form::{Form, Taking, Turn};
use crate::table::{ends_at_closing, turn};
use std::alloc::AllocError;
use utd_builder::closes;
use utd_syntax::Terminal;

/// The levels that are open, the operators in force, and those of them that stand outside the innermost level.
#[derive(Clone, Copy)]
pub struct Load {
    pub levels: usize,
    pub outside: usize,
    pub operators: usize,
}

/// Forms to come, or the end of a level with the load and the forms to come outside it.
#[derive(Clone, Copy)]
pub enum Frame {
    Forms(&'static [Form]),
    Level(Load, &'static [Form]),
}

/// The forms to come: the next ones, and behind them those of the frames, the last of which comes first.
#[derive(Drop)]
pub struct Stack {
    pub next: &'static [Form],
    pub frames: Vec<Frame>,
}

/// What the forms of a frame do with a token: all end before it; it cannot stand there; or it is taken, and the next
/// forms and the rest of the frame follow.
#[derive(Clone, Copy)]
pub enum Passing {
    Passed,
    Stuck,
    Takes(Taking, &'static [Form], &'static [Form]),
}

/// Where the next token stands: behind the end of the text; where it cannot stand; or it is taken, with the load so far.
#[derive(Clone, Copy)]
pub enum Reach {
    Over,
    Stuck,
    Reaches(Taking, Load),
}

fn push(frames: &mut Vec<Frame>, frame: Frame) -> Result<(), AllocError>
    ensures { IfOk result (λ _. stack_of frames.new.items ≡ symbols_in frame ++ stack_of frames.old.items) }
{
    frames.push(frame)?;
    Ok(())
}

fn pop(frames: &mut Vec<Frame>) -> Option<Frame>
    ensures some { IfSome result (λ f. stack_of frames.old.items ≡ symbols_in f ++ stack_of frames.new.items) }
    ensures shorter { IfSome result (λ f. length frames.old.items ≡ length frames.new.items + 1) }
    ensures none { IsNone result → stack_of frames.old.items ≡ [] }
{
    frames.pop()
}

// These forms come next, then the others, and then those of the frames.
fn put(stack: &mut Stack, forms: &'static [Form], behind: &'static [Form]) -> Result<(), AllocError>
    ensures { IfOk result (λ _. symbols_of stack.new ≡ forms_of forms.now ++ (forms_of behind.now ++ stack_of stack.old.frames.items)) }
{
    if forms.is_empty() {
        stack.next = behind;
        return Ok(());
    }
    if !behind.is_empty() {
        push(&mut stack.frames, Frame::Forms(behind))?;
    }
    stack.next = forms;
    Ok(())
}

// Past the next forms, to those of the last frame, if there is one, and the load there.
fn leave(stack: &mut Stack, load: Load) -> Option<Load>
    ensures some { IfSome result (λ l. Leaves stack.old load stack.new l) }
    ensures shorter { IfSome result (λ _. length stack.old.frames.items ≡ length stack.new.frames.items + 1) }
    ensures none { IsNone result → stack_of stack.old.frames.items ≡ [] }
{
    match pop(&mut stack.frames) {
        None => None,
        Some(Frame::Forms(forms)) => {
            stack.next = forms;
            Some(load)
        }
        Some(Frame::Level(outer, forms)) => {
            stack.next = forms;
            Some(outer)
        }
    }
}

// Past the forms at the front that end before every token that closes.
fn behind_closed(forms: &'static [Form]) -> &'static [Form]
    ensures { (x : Terminal) → closes x ≡ true → (base : List table.Symbol) (load : table.Load) (bytes : List ℕ) (behind : Terminal) → verdict.reach (forms_of forms.now ++ base) load x bytes behind ≡ verdict.reach (forms_of result.now ++ base) load x bytes behind }
{
    let mut rest = forms;
    while let Some((form, more)) = rest.split_first() {
        if !ends_at_closing(*form) {
            return rest;
        }
        rest = more;
    }
    rest
}

// The forms that may take the token: where it closes, those behind the ones that end before each such token.
fn left_for(forms: &'static [Form], terminal: Terminal) -> &'static [Form]
    ensures { (base : List table.Symbol) (load : table.Load) (bytes : List ℕ) (behind : Terminal) → verdict.reach (forms_of forms.now ++ base) load terminal bytes behind ≡ verdict.reach (forms_of result.now ++ base) load terminal bytes behind }
{
    let Some((next, _)) = forms.split_first() else {
        return forms;
    };
    if ends_at_closing(*next) && closes(terminal) {
        behind_closed(forms)
    } else {
        forms
    }
}

// The forms of a frame that end before the token are passed.
fn pass(forms: &'static [Form], terminal: Terminal, bytes: &[u8], behind: Terminal) -> Passing
    ensures { (base : List table.Symbol) (load : table.Load) → verdict.reach (forms_of forms.now ++ base) load terminal bytes.now behind ≡ passed result base load terminal bytes.now behind }
{
    let mut rest = left_for(forms, terminal);
    while let Some((form, more)) = rest.split_first() {
        match turn(*form, terminal, bytes, behind) {
            Turn::Never => return Passing::Stuck,
            Turn::Ends => rest = more,
            Turn::Takes(how, next) => return Passing::Takes(how, next, more),
        }
    }
    Passing::Passed
}

/// The forms that end before the token are passed, and the others are what is left.
pub fn advance(
    stack: &mut Stack,
    load: Load,
    terminal: Terminal,
    bytes: &[u8],
    behind: Terminal,
) -> Result<Reach, AllocError>
    ensures { IfOk result (λ r. verdict.reach (symbols_of stack.old) (load_of load) terminal bytes.now behind ≡ reach_of r (symbols_of stack.new)) }
{
    let mut load = load;
    'frame: loop {
        match pass(stack.next, terminal, bytes, behind) {
            Passing::Passed => match leave(stack, load) {
                None => return Ok(Reach::Over),
                Some(outer) => load = outer,
            },
            Passing::Stuck => return Ok(Reach::Stuck),
            Passing::Takes(how, next, rest) => {
                put(stack, next, rest)?;
                return Ok(Reach::Reaches(how, load));
            }
        }
    }
}

// A level opens with these forms.
fn open(stack: &mut Stack, outer: Load, inner: &'static [Form]) -> Result<(), AllocError>
    ensures { IfOk result (λ _. symbols_of stack.new ≡ forms_of inner.now ++ (table.Shut (load_of outer) ∷ symbols_of stack.old)) }
{
    push(&mut stack.frames, Frame::Level(outer, stack.next))?;
    stack.next = inner;
    Ok(())
}

/// The load behind the token, and the forms of the level that it opens.
pub fn enter(stack: &mut Stack, how: Taking, load: Load) -> Result<Load, AllocError>
    requires { is_too_deep (taking_of how) (load_of load) ≡ false }
    ensures load { IfOk result (λ after. load_of after ≡ verdict.load_after (taking_of how) (load_of load)) }
    ensures forms { IfOk result (λ after. symbols_of stack.new ≡ verdict.stack_after (taking_of how) (load_of load) (symbols_of stack.old)) }
{
    match how {
        Taking::Operator => Ok(counted(load)),
        Taking::Separator => Ok(Load {
            levels: load.levels,
            outside: load.outside,
            operators: load.outside,
        }),
        Taking::Opens(inner) => {
            open(stack, load, inner)?;
            Ok(opened(load))
        }
        Taking::OperatorOpens(inner) => {
            let outer = counted(load);
            open(stack, outer, inner)?;
            Ok(opened(outer))
        }
        Taking::Plain => Ok(load),
        Taking::Negated => Ok(load),
        Taking::Dated => Ok(load),
        Taking::Timed => Ok(load),
    }
}

// With one more operator in force.
fn counted(load: Load) -> Load
    requires { load.operators < most_operators }
    ensures { load_of result ≡ verdict.counted (load_of load) }
{
    Load {
        levels: load.levels,
        outside: load.outside,
        operators: load.operators + 1,
    }
}

// In one more level.
fn opened(load: Load) -> Load
    requires { load.levels < most_levels }
    ensures { load_of result ≡ verdict.opened (load_of load) }
{
    Load {
        levels: load.levels + 1,
        outside: load.operators,
        operators: load.operators,
    }
}
