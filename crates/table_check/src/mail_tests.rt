// Letters come out in the order in which they came.

use letter_kinds::Letter;
use mail_rows::MailRow;

fn token_of(letter: &Letter) -> u64 {
    match letter {
        Letter::Confirm { token } => *token,
        _ => 0,
    }
}

/// Takes the first letter out, and answers its token.
fn take_token(row: &mut MailRow) -> Option<u64> {
    match row.take() {
        Some(letter) => Some(token_of(&letter)),
        None => None,
    }
}

/// Three letters more. Whether there was memory for them.
fn push_three(row: &mut MailRow) -> bool {
    if row.reserve(3).is_err() {
        return false;
    }
    row.push(Letter::Confirm { token: 3 });
    row.push(Letter::Confirm { token: 5 });
    row.push(Letter::Confirm { token: 8 });
    true
}

fn stand_in_order(row: &MailRow) -> bool {
    let Some(first) = row.front() else {
        return false;
    };
    token_of(first) == 3 && row.len() == 3 && token_of(row.at(1)) == 5 && token_of(row.at(2)) == 8
}

/// Whether three letters stand and leave in the order in which they came, and no other one leaves.
fn come_in_order(row: &mut MailRow) -> bool {
    let before = take_token(row);
    let stand = push_three(row) && stand_in_order(row);
    let tokens = [take_token(row), take_token(row), take_token(row)];
    let empty = row.is_empty();
    let behind = take_token(row);
    stand && empty && tokens == [Some(3), Some(5), Some(8)] && (before, behind) == (None, None)
}

#[test]
fn letters_come_first_in_first_out(rt: HostRuntime) {
    let mut row = MailRow::new(rt.alloc());
    let holds = come_in_order(&mut row);
    drop(row);
    assert!(rt; holds);
}
