// A session: a script that comes in pieces.
ghost use Rattle.std.specs.Prelude.{◌≡◌, ℕ, pos, ◌<ℤ◌, ◌≤ℤ◌, ◌+ℤ◌, ◌+◌, ◌-◌, ◌^◌, ◌<◌, ◌≤◌, true, ◌&&◌, List, [], ◌∷◌, ◌++◌, length, IfOk, OnOk, OnErr, IfErr, IsOk, MatchOption, MatchResult, IfSome};
ghost use Rattle.utd_io.specs.Io.{Rose, Gains, GainsPrefix};
ghost use Rattle.point_core.specs.declared.fault.Place.{Place};
ghost use Rattle.point_core.specs.Whole.{greatest_whole};
ghost use Rattle.value_core.specs.Limits.{most_script_bytes};
ghost use Rattle.utd_lexer.specs.Cutting.{Since};
ghost use Rattle.utd_lexer.specs.Tokens.{Fits, place_after};
ghost use Rattle.utd_session.specs.Unfinished.{IsUnfinished};
ghost use Rattle.utd_session.specs.Statements.{Complete, NoEnd, EndsOne};
ghost use Rattle.utd_session.specs.Databases.{state_of};
ghost use Rattle.utd_session.specs.Feeding.{IsReplyTo};
ghost use Rattle.utd_session.specs.Costs.{TakesAtMost};

use crate::fault::SessionFault;
use crate::unfinished::Unfinished;
use assign_core::Database;
use dump_core::Texts;
use point_core::{Code, Memory, Steps};
use std::alloc::Global;
use std::sync::ledger::Ledger;
use utd_io::{Sink, write_all};
use utd_lexer::{Cut, Cutter};
use utd_statement::{Reply, answer_to_text, refusal};
use value_core::Refuse;

/// Why a session ended, and the database after the last statement that was performed.
#[derive(Drop)]
pub struct Ended {
    pub why: SessionFault,
    pub database: Database,
}

/// The database after all statements, the texts of its declarations, and whether all statements were accepted.
#[derive(Drop)]
pub struct Finished {
    pub database: Database,
    pub texts: Texts,
    pub all_accepted: bool,
}

/// A script that comes in pieces. Each statement is performed as soon as its `;` has come; of the bytes that came only
/// those of the statement that is not ended are kept, and where they are too many only their number.
#[derive(Drop)]
pub struct Session {
    alloc: Global,
    database: Database,
    texts: Texts,
    all_accepted: bool,
    fed: u64,
    number: u32,
    unfinished: Unfinished,
    cutter: Cutter,
    ghost few: { fed ≤ most_script_bytes },
    ghost numbered: { number + unfinished.size ≤ fed + 1 },
    ghost begun: { (unfinished.start.line ≤ fed + 1) × (unfinished.start.column ≤ fed + 1) },
    ghost placed: { (unfinished.next.line ≤ fed + 1) × (unfinished.next.column ≤ fed + 1) },
    ghost counted: { database.accepted ≤ℤ pos fed },
}

// The answer to the statement that is ended, and the database and the texts after it. One that is too long is refused unread. For want of
// memory the database stays.
fn answer_to_ended<L: Ledger>(
    alloc: Global,
    database: &mut Database,
    texts: &mut Texts,
    number: u32,
    unfinished: &Unfinished,
    steps: &mut Steps<L>,
) -> Result<Reply, Memory>
    requires start { unfinished.now.start.line + unfinished.now.start.column ≤ 2 ^ 31 }
    requires room { ((state_of database.old).accepted +ℤ pos 1) <ℤ greatest_whole }
    ensures reply { (place : Place) (bytes : List ℕ) → IsUnfinished unfinished.now place bytes
        → IfOk result (λ r. IsReplyTo (Complete place bytes) (state_of database.old) (state_of database.new) texts.old texts.new number r) }
    ensures stays { OnErr result (state_of database.new ≡ state_of database.old) }
    ensures count { (state_of database.new).accepted ≤ℤ ((state_of database.old).accepted +ℤ pos 1) }
    ensures cost { (place : Place) (bytes : List ℕ) → IsUnfinished unfinished.now place bytes
        → TakesAtMost (Complete place bytes) (state_of database.old) steps.old steps.new }
{
    match unfinished.text() {
        Some(text) => answer_to_text(
            alloc,
            database,
            texts,
            number,
            text,
            unfinished.start(),
            steps,
        ),
        None => refusal(alloc, number, &Refuse::Plain(Code::E03)),
    }
}

// What a `;` makes of the statement before it: its answer and what is left after it, with its bytes kept. For want of memory the
// database stays.
fn reply_to_end<L: Ledger>(
    alloc: Global,
    database: &mut Database,
    texts: &mut Texts,
    number: u32,
    unfinished: &mut Unfinished,
    prefix: &[u8],
    steps: &mut Steps<L>,
) -> Result<Reply, Memory>
    requires places { Fits unfinished.old.next (length prefix.now) }
    requires start { unfinished.old.start.line + unfinished.old.start.column ≤ 2 ^ 31 }
    requires few { unfinished.old.size + length prefix.now ≤ 2 ^ 32 - 1 }
    requires room { ((state_of database.old).accepted +ℤ pos 1) <ℤ greatest_whole }
    ensures reply { (place : Place) (bytes : List ℕ) → IsUnfinished unfinished.old place bytes
        → IfOk result (λ r. IsReplyTo (Complete place (bytes ++ prefix.now))
        (state_of database.old) (state_of database.new) texts.old texts.new number r) }
    ensures stays { OnErr result (state_of database.new ≡ state_of database.old) }
    ensures count { (state_of database.new).accepted ≤ℤ ((state_of database.old).accepted +ℤ pos 1) }
    ensures more { (place : Place) (bytes : List ℕ) → IsUnfinished unfinished.old place bytes
        → OnOk result (IsUnfinished unfinished.new place (bytes ++ prefix.now)) }
    ensures size { unfinished.new.size ≡ unfinished.old.size + length prefix.now }
    ensures start { unfinished.new.start ≡ unfinished.old.start }
    ensures next { unfinished.new.next ≡ place_after unfinished.old.next prefix.now }
    ensures cost { (place : Place) (bytes : List ℕ) → IsUnfinished unfinished.old place bytes
        → TakesAtMost (Complete place (bytes ++ prefix.now)) (state_of database.old) steps.old steps.new }
{
    unfinished.extend(prefix)?;
    let reply = answer_to_ended(alloc, database, texts, number, unfinished, steps)?;
    Ok(reply)
}

// Up to where the next statement ends in the piece, and what is behind that.
fn next_end<'a>(cutter: &mut Cutter, piece: &'a [u8]) -> Option<(&'a [u8], &'a [u8])>
    ensures parts { IfSome result (λ p. piece.now ≡ p.0.now ++ p.1.now) }
    ensures some { IfSome result (λ p. 0 < length p.0.now) }
    ensures end { (place : Place) (bytes : List ℕ) → Since cutter.old bytes
        → MatchOption result (NoEnd place bytes piece.now) (λ p. EndsOne place bytes p.0.now) }
    ensures since { (bytes : List ℕ) → Since cutter.old bytes
        → MatchOption result (Since cutter.new (bytes ++ piece.now)) (λ p. Since cutter.new []) }
{
    let mut at = 0;
    'byte: while at < piece.len() {
        match cutter.step(piece[at]) {
            Cut::Inside => {}
            Cut::Ends => return Some(piece.split_at(at + 1)),
        }
        at += 1;
        at += cutter.passing(piece.split_at(at).1);
    }
    None
}

// In a function of its own, since a branch on the first would join two states.
fn both(a: bool, b: bool) -> bool
    ensures { result ≡ (a && b) }
{
    a && b
}

impl Session {
    ghost use Rattle.utd_lexer.specs.Parts.{IsBlank};
    ghost use Rattle.utd_session.specs.Statements.{cut, complete_statements, statements};
    ghost use Rattle.utd_statement.specs.Readings.{Reading};
    ghost use Rattle.utd_statement.specs.Answers.{text_of, answer};
    ghost use Rattle.utd_session.specs.Machine.{performed, performed_after};
    ghost use Rattle.utd_session.specs.Texts.{AreTextsOf};
    ghost use Rattle.utd_session.specs.Feeding.{HasReading};
    ghost use Rattle.utd_session.specs.Unfinished.{kept_of};
    ghost use Rattle.utd_session.specs.Costs.{IsWithinCost};
    ghost use Rattle.utd_session.specs.Sessions.{StandsFor, GoesOn, IsCutOff, IsFinished, fed_of, state_in};

    /// A session that stands for nothing yet. It takes no memory.
    pub fn new(alloc: Global) -> Session
        ensures nothing { StandsFor result [] [] }
        ensures fed { fed_of result ≡ 0 }
    {
        Session {
            alloc,
            database: Database::new(alloc),
            texts: Texts::new(alloc),
            all_accepted: true,
            fed: 0,
            number: 1,
            unfinished: Unfinished::new(alloc),
            cutter: Cutter::new(),
        }
    }

    /// How many bytes were fed.
    pub fn fed(&self) -> u64
        ensures fed { result ≡ fed_of self.now }
        ensures few { result ≤ most_script_bytes }
        ensures length { (bytes : List ℕ) (rs : List Reading) → StandsFor self.now bytes rs → result ≡ length bytes }
    {
        self.fed
    }

    /// The bytes of the statement that is not ended, or none where they are more than 1,048,576. It takes no memory.
    pub fn held(&self) -> &[u8]
        ensures { (bytes : List ℕ) (rs : List Reading) → StandsFor self.now bytes rs → result.now ≡ kept_of (cut bytes).rest }
    {
        self.unfinished.held()
    }

    // Keeps bytes that end no statement.
    fn keep(self, piece: &[u8], cutter: Cutter) -> Result<Session, Ended>
        requires { self.fed + length piece.now ≤ most_script_bytes }
        ensures fed { IfOk result (λ s. s.fed ≡ self.fed + length piece.now) }
        ensures kept { (bytes : List ℕ) (rs : List Reading) → StandsFor self bytes rs
            → NoEnd (cut bytes).place (cut bytes).rest piece.now → Since cutter ((cut bytes).rest ++ piece.now)
            → IfOk result (λ s. StandsFor s (bytes ++ piece.now) rs) }
        ensures why { IfErr result (λ e. e.why ≡ SessionFault.Memory) }
        ensures left { IfErr result (λ e. e.database ≡ self.database) }
    {
        let Session {
            alloc,
            database,
            texts,
            all_accepted,
            fed,
            number,
            unfinished,
            cutter: _,
        } = self;
        let mut unfinished = unfinished;
        let Ok(()) = unfinished.extend(piece) else {
            let why = SessionFault::Memory;
            return Err(Ended { why, database });
        };
        Ok(Session {
            alloc,
            database,
            texts,
            all_accepted,
            fed: fed + piece.len() as u64,
            number,
            unfinished,
            cutter,
        })
    }

    // Performs the statement that these bytes end. Its whole output is made before its first byte is written. Where it fails, the
    // session only hands the database back.
    fn end<K: Sink, L: Ledger>(
        &mut self,
        prefix: &[u8],
        out: &mut K,
        steps: &mut Steps<L>,
    ) -> Result<(), SessionFault>
        requires some { 0 < length prefix.now }
        requires few { self.old.fed + length prefix.now ≤ most_script_bytes }
        ensures fed { OnOk result (self.new.fed ≡ self.old.fed + length prefix.now) }
        ensures since { OnOk result (Since self.new.cutter []) }
        ensures performed { (bytes : List ℕ) (rs : List Reading) → StandsFor self.old bytes rs
            → EndsOne (cut bytes).place (cut bytes).rest prefix.now
            → OnOk result (HasReading bytes prefix.now (λ r. StandsFor self.new (bytes ++ prefix.now) (rs ++ r ∷ [])
            × Gains (K.written out.old) (text_of (length rs + 1) (answer (performed rs).state r)) (K.written out.new))) }
        ensures memory { IfErr result (λ why. why ≡ SessionFault.Memory
            → (K.written out.new ≡ K.written out.old) × (state_of self.new.database ≡ state_of self.old.database)) }
        ensures write { (bytes : List ℕ) (rs : List Reading) → StandsFor self.old bytes rs
            → IfErr result (λ why. why ≡ SessionFault.Write → HasReading bytes prefix.now (λ r. GainsPrefix
            (K.written out.old) (text_of (length rs + 1) (answer (performed rs).state r)) (K.written out.new)
            × (state_of self.new.database ≡ (performed (rs ++ r ∷ [])).state))) }
        ensures count { K.faults out.old ≤ K.faults out.new }
        ensures cause { IfErr result (λ why. why ≡ SessionFault.Write → Rose (K.faults out.old) (K.faults out.new)) }
        ensures cost { (bytes : List ℕ) (rs : List Reading) → StandsFor self.old bytes rs
            → TakesAtMost (Complete (cut bytes).place ((cut bytes).rest ++ prefix.now)) (performed rs).state steps.old steps.new }
    {
        self.fed += prefix.len() as u64;
        let Ok(reply) = reply_to_end(
            self.alloc,
            &mut self.database,
            &mut self.texts,
            self.number,
            &mut self.unfinished,
            prefix,
            steps,
        ) else {
            return Err(SessionFault::Memory);
        };
        let Ok(()) = write_all(out, &reply.text) else {
            return Err(SessionFault::Write);
        };
        self.all_accepted = both(reply.accepted, self.all_accepted);
        self.number += 1;
        self.unfinished.restart();
        self.cutter = Cutter::new();
        Ok(())
    }

    /// Takes more of the script, and performs the statements that end in it.
    pub fn feed<K: Sink, L: Ledger>(
        self,
        piece: &[u8],
        out: &mut K,
        steps: &mut Steps<L>,
    ) -> Result<Session, Ended>
        requires { fed_of self + length piece.now ≤ most_script_bytes }
        ensures fed { IfOk result (λ s. fed_of s ≡ fed_of self + length piece.now) }
        ensures stands { (bytes : List ℕ) (rs : List Reading) → StandsFor self bytes rs
            → IfOk result (λ s. (more : List Reading) × StandsFor s (bytes ++ piece.now) (rs ++ more)
            × Gains (K.written out.old) (performed_after rs more).output (K.written out.new)) }
        ensures memory { (bytes : List ℕ) (rs : List Reading) → StandsFor self bytes rs
            → IfErr result (λ e. e.why ≡ SessionFault.Memory → (more : List Reading)
            × GoesOn (complete_statements (bytes ++ piece.now)) rs more
            (K.written out.old) (K.written out.new) (state_of e.database)) }
        ensures write { (bytes : List ℕ) (rs : List Reading) → StandsFor self bytes rs
            → IfErr result (λ e. e.why ≡ SessionFault.Write
            → (more : List Reading) × (r : Reading) × (text : List ℕ)
            × IsCutOff (complete_statements (bytes ++ piece.now)) rs more r text
            (K.written out.old) (K.written out.new) (state_of e.database)) }
        ensures count { K.faults out.old ≤ K.faults out.new }
        ensures cause { IfErr result (λ e. e.why ≡ SessionFault.Write → Rose (K.faults out.old) (K.faults out.new)) }
        // At most the steps of the statements that are performed or begun.
        ensures cost { (bytes : List ℕ) (rs : List Reading) → StandsFor self bytes rs → MatchResult result
            (λ s. IsWithinCost (complete_statements (bytes ++ piece.now)) rs (state_in s) steps.old steps.new)
            (λ e. IsWithinCost (complete_statements (bytes ++ piece.now)) rs (state_of e.database) steps.old steps.new) }
    {
        let mut cutter = self.cutter;
        let mut session = self;
        let mut rest = piece;
        while let Some((prefix, behind)) = next_end(&mut cutter, rest) {
            match session.end(prefix, out, steps) {
                Ok(()) => rest = behind,
                Err(why) => {
                    let database = session.database;
                    return Err(Ended { why, database });
                }
            }
        }
        session.keep(rest, cutter)
    }

    /// Performs what no `;` has ended, if that is not blank.
    pub fn finish<K: Sink, L: Ledger>(
        self,
        out: &mut K,
        _steps: &mut Steps<L>,
    ) -> Result<Finished, Ended>
        ensures finished { (bytes : List ℕ) (rs : List Reading) → StandsFor self bytes rs
            → IfOk result (λ f. (more : List Reading) × IsFinished (statements bytes) rs more
            (K.written out.old) (K.written out.new) (state_of f.database) f.all_accepted) }
        ensures texts { (bytes : List ℕ) (rs : List Reading) → StandsFor self bytes rs → IfOk result (λ f. AreTextsOf bytes f.texts) }
        ensures blank { (bytes : List ℕ) (rs : List Reading) → StandsFor self bytes rs → IsBlank (cut bytes).rest
            → IsOk result × (out.new ≡ out.old) }
        ensures memory { (bytes : List ℕ) (rs : List Reading) → StandsFor self bytes rs
            → IfErr result (λ e. e.why ≡ SessionFault.Memory → (more : List Reading)
            × GoesOn (statements bytes) rs more (K.written out.old) (K.written out.new) (state_of e.database)) }
        ensures write { (bytes : List ℕ) (rs : List Reading) → StandsFor self bytes rs
            → IfErr result (λ e. e.why ≡ SessionFault.Write
            → (more : List Reading) × (r : Reading) × (text : List ℕ)
            × IsCutOff (statements bytes) rs more r text
            (K.written out.old) (K.written out.new) (state_of e.database)) }
        ensures count { K.faults out.old ≤ K.faults out.new }
        ensures cause { IfErr result (λ e. e.why ≡ SessionFault.Write → Rose (K.faults out.old) (K.faults out.new)) }
        ensures cost { _steps.new ≡ _steps.old }
    {
        let Session {
            alloc,
            database,
            texts,
            all_accepted,
            fed: _,
            number,
            unfinished: _,
            cutter,
        } = self;
        if cutter.is_blank() {
            return Ok(Finished {
                database,
                texts,
                all_accepted,
            });
        }
        let Ok(reply) = refusal(alloc, number, &Refuse::Plain(Code::E04)) else {
            let why = SessionFault::Memory;
            return Err(Ended { why, database });
        };
        let Ok(()) = write_all(out, &reply.text) else {
            let why = SessionFault::Write;
            return Err(Ended { why, database });
        };
        Ok(Finished {
            database,
            texts,
            all_accepted: both(reply.accepted, all_accepted),
        })
    }

    /// Performs nothing more, and hands the database back.
    pub fn stop(self) -> Database
        ensures { (bytes : List ℕ) (rs : List Reading) → StandsFor self bytes rs
            → state_of result ≡ (performed rs).state }
    {
        self.database
    }
}
