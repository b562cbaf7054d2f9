//! A session that takes values in and gives values: each call, and a refusal of each kind.

use crate::of_script::written::CUTTING;
use cells::{Cell, Plain, Refused, Text, Total};
use crew::Open;
use forms::Form;
use report::Pour;
use script::{Answer, Ended, Heard, How, Manner, Session, Undone, delete_line, put_line};
use std::alloc::{AllocError, Global};
use std::sync::Wait;
use std::test::Fail;
use std::thread::Threads;

/// The cells spell this line. A text stands in quotes where CSV wants them; NULL is an empty field.
fn puts_as(alloc: Global, text: &str, wanted: &[u8]) -> Result<bool, AllocError> {
    let cells = [
        Cell::Int(-7),
        Cell::Text(Text::copied(alloc, text)?),
        Cell::Null,
    ];
    Ok(put_line(alloc, &cells)?.as_slice() == wanted)
}

/// The key spells this line.
fn deletes_as(alloc: Global, key: &Cell, wanted: &[u8]) -> Result<bool, Refused> {
    Ok(delete_line(alloc, key)?.as_slice() == wanted)
}

#[test]
fn cells_spell_the_line_of_a_put(rt: HostRuntime) -> Result<(), Fail> {
    assert!(rt; puts_as(rt.alloc(), "Ann", b"put -7,Ann,\n")?);
    assert!(rt; puts_as(rt.alloc(), "a\"b,c", b"put -7,\"a\"\"b,c\",\n")?);
    Ok(())
}

#[test]
fn a_key_spells_the_line_of_a_delete(rt: HostRuntime) -> Result<(), Fail> {
    let key = Cell::Text(Text::copied(rt.alloc(), "O'Hara")?);
    assert!(rt; deletes_as(rt.alloc(), &key, b"delete 'O''Hara'")?);
    assert!(rt; deletes_as(rt.alloc(), &Cell::Int(-7), b"delete -7")?);
    Ok(())
}

/// 0 where it is done, else the number of the refusal.
fn number(answer: Result<(), Undone>) -> u64 {
    match answer {
        Ok(()) => 0,
        Err(why) => u64::from(Refused::from(why).number()),
    }
}

/// The number of the edition, or 100 and that of the refusal.
fn edition(answer: Result<u64, Undone>) -> u64 {
    match answer {
        Ok(edition) => edition,
        Err(why) => 100 + u64::from(Refused::from(why).number()),
    }
}

/// A session over this table, which may have one row.
fn declares<R: Threads + Wait + Sync>(
    session: &mut Session<'_, Plain, R, Open>,
    alloc: Global,
) -> Result<Heard, Ended> {
    let mut out = Pour::new(Vec::new(alloc));
    session.line(b"table T (K INT KEY, V TEXT)", &mut out)
}

/// What puts, deletes and publishes answer before a table is declared.
fn untabled<R: Threads + Wait + Sync>(
    session: &mut Session<'_, Plain, R, Open>,
) -> (u64, u64, u64) {
    (
        number(session.put(&[Cell::Int(1), Cell::Null])),
        number(session.delete(&Cell::Int(1))),
        edition(session.publish()),
    )
}

/// What puts answer: one of too few cells, one of a NULL key, one that is done, one of a second row, and one in the place of
/// the first.
fn put_in<R: Threads + Wait + Sync>(session: &mut Session<'_, Plain, R, Open>) -> [u64; 5] {
    [
        number(session.put(&[Cell::Int(1)])),
        number(session.put(&[Cell::Null, Cell::Null])),
        number(session.put(&[Cell::Int(1), Cell::Null])),
        number(session.put(&[Cell::Int(2), Cell::Null])),
        number(session.put(&[Cell::Int(1), Cell::Int(5)])),
    ]
}

/// The one value of the answer's one row, or minus the number of the refusal.
fn value(answer: Result<Answer, Refused>) -> i128 {
    match answer {
        Ok(answer) => sole(&answer),
        Err(rule) => -i128::from(rule.number()),
    }
}

fn sole(answer: &Answer) -> i128 {
    match answer.rows() {
        [row] => match row.totals.as_slice() {
            [Total::Int(value)] => *value,
            _ => -200,
        },
        _ => -100,
    }
}

/// What the steps of a session answer.
fn answers<R: Threads + Wait + Sync>(rt: &R, alloc: Global) -> Result<bool, Ended> {
    let how = How::of(1, CUTTING, 1);
    let manner = Manner::of(alloc, Form::Classic);
    let mut session: Session<'_, Plain, R, Open> = Session::new(
        rt,
        alloc,
        &[],
        &how,
        &manner,
        &Open,
    );
    let first = untabled(&mut session) == (1, 1, 101);
    let none = value(session.report("SELECT COUNT(*) FROM T")) == -1;
    declares(&mut session, alloc)?;
    let puts = put_in(&mut session) == [7, 7, 0, 9, 0];
    let published = edition(session.publish()) == 1;
    let counted = value(session.report("SELECT COUNT(V) FROM T WHERE V = '5'")) == 1;
    let bad = number(session.delete(&Cell::Null)) == 8;
    let deleted = number(session.delete(&Cell::Int(1))) == 0;
    let again = edition(session.publish()) == 2;
    let gone = value(session.report("SELECT COUNT(*) FROM T")) == 0;
    Ok(first && none && puts && published && counted && bad && deleted && again && gone)
}

#[test]
fn a_session_takes_values_in(rt: HostRuntime) -> Result<(), Fail> {
    assert!(rt; answers(&rt, rt.alloc())?);
    Ok(())
}

/// What the calls of a session answer one after another, each 0 where it is done.
fn answers_in_turn<R: Threads + Wait + Sync>(rt: &R, alloc: Global) -> [u64; 4] {
    let how = How::of(1, CUTTING, 1);
    let manner = Manner::of(alloc, Form::Classic);
    let mut session: Session<'_, Plain, R, Open> = Session::new(
        rt,
        alloc,
        &[],
        &how,
        &manner,
        &Open,
    );
    let declared = match declares(&mut session, alloc) {
        Ok(_) => 0,
        Err(why) => u64::from(why.number()),
    };
    let put = number(session.put(&[Cell::Int(1), Cell::Int(5)]));
    let published = match session.publish() {
        Ok(_) => 0,
        Err(why) => u64::from(Refused::from(why).number()),
    };
    let deleted = number(session.delete(&Cell::Int(1)));
    [declared, put, published, deleted]
}

/// With each allocation failing in turn, too: a call that wants memory ends the session, and each later one answers so.
#[test]
fn a_session_that_wants_memory_is_over(rt: HostRuntime) -> Result<(), Fail> {
    let [declared, put, published, deleted] = answers_in_turn(&rt, rt.alloc());
    assert!(rt; declared <= put && put <= published && published <= deleted);
    assert!(rt; deleted == 0 || deleted == 90);
    Ok(())
}
