// A 93 credit (docs/RULES.md, Incoming): it alters one record's peer window and no other field.
#![tactic(auto)]

ghost use Rattle.std.specs.Prelude.{◌≡◌};
ghost use Rattle.credit.specs.Credit.{credit_answer, credit_record, credited};

use channel::{Record, Refusal};

// Credit by value: refused where the window would pass 4,294,967,295.
pub fn add_credit(r: Record, add: u32) -> Result<Record, Refusal>
    ensures { result ≡ credited r add }
{
    let Some(window) = r.recipient_window_size.checked_add(add) else {
        return Err(Refusal::Credit);
    };
    Ok(Record {
        recipient_window_size: window,
        ..r
    })
}

// Credit to a record that is lent.
pub fn credit(r: &mut Record, add: u32) -> Result<(), Refusal>
    ensures answer { result ≡ credit_answer r.old add }
    ensures left { r.new ≡ credit_record r.old add }
{
    *r = add_credit(*r, add)?;
    Ok(())
}
