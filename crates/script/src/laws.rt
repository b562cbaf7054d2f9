//! The laws of what a script writes.
ghost use Rattle.std.specs.Prelude.{◌≡◌, ℕ, ◌++◌, ◌∷◌, List, [], Ok, codes, length, reverse, ◌≤◌};
ghost use Rattle.std.specs.Str.Lines.{lines};
ghost use Rattle.cells.specs.Hashes.{plain_hash};
ghost use Rattle.cells.specs.declared.cell.Cell.{Cell as CellValue};
ghost use Rattle.script.specs.Deeds.{Shapes};
ghost use Rattle.script.specs.Givens.{Givens, givens};
ghost use Rattle.script.specs.Limits.{part_limit, script_limit};
ghost use Rattle.script.specs.Output.{AreBlocks, InThree, InTwo, IsBlock, IsOutput, deed_behind, text_of};
ghost use Rattle.script.specs.Sessions.{AreReplies};
ghost use Rattle.script.specs.Stops.{AreBlocksUpTo, StoppedAt};
ghost use Rattle.script.specs.Tails.{IsLive, IsTail, Viewing};

use crate::finish::Finish;
use crate::on_refusal::OnRefusal;
use query::{a_text_has_one_answer, each_text_has_an_answer};

/// Each script has an output, and no other: what it writes is decided by its lines, its parts and the hash.
pub fn each_script_has_one_output()
    ensures some { (hash : CellValue → ℕ) (givens : Givens) (script : List ℕ) → (bytes : List ℕ) × IsOutput hash givens script bytes }
    ensures one { (hash : CellValue → ℕ) (givens : Givens) (script bytes others : List ℕ) →
        IsOutput hash givens script bytes → IsOutput hash givens script others → bytes ≡ others }
{
    a_text_has_one_answer();
    each_text_has_an_answer();
}

/// A line's block depends on that line and on the lines before it alone, whatever lines follow.
pub fn each_line_by_itself()
    ensures { (hash : CellValue → ℕ) (givens : Givens) (earlier : List (List ℕ)) (line : List ℕ) (later : List (List ℕ)) (bytes : List ℕ) →
        AreBlocks hash givens [] (earlier ++ line ∷ later) bytes →
        InThree (AreBlocks hash givens [] earlier) (IsBlock hash givens (reverse earlier) line) (AreBlocks hash givens (line ∷ reverse earlier) later) bytes }
{}

/// A strict run writes the blocks of the lines up to the first refused one, and with it; where no line is refused, the blocks
/// of all lines.
pub fn strict_stops_at_the_first_refused_line()
    ensures through { (hash : CellValue → ℕ) (givens : Givens) (lines : List (List ℕ)) (bytes : List ℕ) →
        AreBlocksUpTo hash givens OnRefusal.Stops [] lines Finish.Through bytes → AreBlocks hash givens [] lines bytes }
    ensures stopped { (hash : CellValue → ℕ) (givens : Givens) (lines : List (List ℕ)) (bytes : List ℕ) →
        AreBlocksUpTo hash givens OnRefusal.Stops [] lines Finish.Stopped bytes → StoppedAt hash givens [] lines bytes }
{
    a_text_has_one_answer();
}

/// The hash of keys decides the blocks of shapes alone: any other line has the same block under every
/// hash.
pub fn hash_decides_shapes_alone()
    ensures { (hash other : CellValue → ℕ) (givens : Givens) (before : List (List ℕ)) (line bytes : List ℕ) →
        (deed_behind givens before line ≡ Ok Shapes → ⊥) → IsBlock hash givens before line bytes → IsBlock other givens before line bytes }
{}

/// A run with viewers writes first what the script writes without them, and then a live tail.
pub fn live_writes_the_output_first()
    ensures { (hash : CellValue → ℕ) (givens : Givens) (viewing : Viewing) (script output bytes : List ℕ) →
        IsOutput hash givens script output → IsLive hash givens viewing script bytes → InTwo (λ first. first ≡ output) (IsTail givens viewing script) bytes }
{
    a_text_has_one_answer();
}

/// Seven worked scripts, by the definition of the output: none of them asks the code.
pub fn worked_scripts()
    ensures empty { IsOutput plain_hash (givens 1 []) [] [] }
    ensures no_table { IsOutput plain_hash (givens 1 []) (text_of (codes "publish" ∷ [])) (text_of (codes "line 1 refused 1" ∷ [])) }
    ensures capitals { IsOutput plain_hash (givens 1 []) (text_of (codes "Table T (K INT KEY)" ∷ [])) (text_of (codes "line 1 refused 3" ∷ [])) }
    ensures counted { IsOutput plain_hash (givens 1 []) (text_of (codes "table T (K INT KEY)" ∷ codes "publish" ∷ codes "report SELECT COUNT(*) FROM T" ∷ []))
        (text_of (codes "line 3 edition 1" ∷ codes "COUNT(*)" ∷ codes "0" ∷ [])) }
    ensures replaced { IsOutput plain_hash (givens 9 [])
        (text_of (codes "table T (K INT KEY)" ∷ codes "put 1" ∷ codes "put 2" ∷ codes "put 1"
        ∷ codes "publish" ∷ codes "report SELECT COUNT(*) FROM T" ∷ codes "put x" ∷ []))
        (text_of (codes "line 6 edition 1" ∷ codes "COUNT(*)" ∷ codes "2" ∷ codes "line 7 refused 7" ∷ [])) }
    ensures deleted { IsOutput plain_hash (givens 9 [])
        (text_of (codes "table T (K INT KEY)" ∷ codes "put 1" ∷ codes "delete 1" ∷ codes "publish" ∷ codes "report SELECT COUNT(*) FROM T" ∷ []))
        (text_of (codes "line 5 edition 1" ∷ codes "COUNT(*)" ∷ codes "0" ∷ [])) }
    ensures rolled_up { IsOutput plain_hash (givens 9 [])
        (text_of (codes "table T (K INT KEY, V INT)" ∷ codes "put 1,5" ∷ codes "put 2,5" ∷ codes "put 3," ∷ codes "publish"
        ∷ codes "report SELECT V, COUNT(*) FROM T GROUP BY ROLLUP (V)" ∷ []))
        (text_of (codes "line 6 edition 1" ∷ codes "V | COUNT(*)" ∷ codes "NULL | 1" ∷ codes "5 | 2" ∷ codes "NULL | 3" ∷ [])) }
{}

/// What a session wrote, whose lines are those of a script, is the script's output: the replies to lines that come one by
/// one are what [`run`](crate::run) writes for all of them.
pub fn a_session_writes_the_output_of_its_lines()
    ensures { (hash : CellValue → ℕ) (givens : Givens) (script bytes : List ℕ) → length script ≤ script_limit → length givens.parts ≤ part_limit →
        AreReplies hash givens (reverse (lines script)) bytes → IsOutput hash givens script bytes }
{}
