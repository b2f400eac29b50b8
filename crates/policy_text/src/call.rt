//! The lines of a policy text that call a sheet.
ghost use Rattle.std.specs.Prelude.{◌≡◌, option_map};
ghost use Rattle.words.specs.Left.{seen, left};
ghost use Rattle.sheet.specs.Shown.{shown};
ghost use Rattle.policy_text.specs.Calls.{grant_in, property_in, second_in, setting_call, grant_call, property_call};
ghost use Rattle.policy_text.specs.Called.{Answers, flaw_of};

use access::context_set::ContextSet;
use access::policy::Policy;
use access::property::Property;
use access::refusal::Refusal;
use judge::grant::Grant;
use sheet::sheet::Sheet;
use words::context::context;
use words::flaw::Flaw;
use words::names::Names;
use words::number::number;
use words::operation::operations;
use words::set::set;
use words::template::template;
use words::word::{Word, Words};

/// The second set of a property, empty where no word names one.
fn second_set(names: &Names, word: Option<Word<'_>>) -> Result<ContextSet, Flaw>
    ensures { result ≡ second_in names.now (option_map seen word.entry) }
{
    match word {
        Some(word) => set(names, word),
        None => {
            let none = ContextSet::none();
            none.is_its_members();
            Ok(none)
        }
    }
}

/// What a call of the sheet says of the line.
fn of_line(answer: Result<(), Refusal>) -> Result<(), Flaw>
    ensures { result ≡ flaw_of answer }
{
    answer.map_err(Flaw::of_line)
}

/// Adds operations to what is written for a pair.
pub fn add<P: Policy>(
    sheet: &mut Sheet<P>,
    names: &Names,
    subject: Word<'_>,
    target: Word<'_>,
    added: Words<'_>,
) -> Result<(), Flaw>
    ensures { Answers (shown sheet.old) (setting_call names.now (shown sheet.old) (seen subject.entry) (seen target.entry) (left added.entry)) result (shown sheet.new) }
{
    let subject = context(names, subject)?;
    let target = context(names, target)?;
    let added = operations(added)?;
    let set = sheet.written(subject, target).or(added);
    of_line(sheet.set(subject, target, set))
}

/// The grant that words say.
fn grant_of(
    names: &Names,
    subjects: Word<'_>,
    targets: Word<'_>,
    granted: Words<'_>,
) -> Result<Grant, Flaw>
    ensures { result ≡ grant_in names.now (seen subjects.entry) (seen targets.entry) (left granted.entry) }
{
    let subjects = set(names, subjects)?;
    let targets = set(names, targets)?;
    let operations = operations(granted)?;
    Ok(Grant {
        subjects,
        targets,
        operations,
    })
}

pub fn enter_grant<P: Policy>(
    sheet: &mut Sheet<P>,
    names: &Names,
    as_number: Word<'_>,
    subjects: Word<'_>,
    targets: Word<'_>,
    granted: Words<'_>,
) -> Result<(), Flaw>
    ensures { Answers (shown sheet.old) (grant_call names.now (seen as_number.entry) (seen subjects.entry) (seen targets.entry) (left granted.entry)) result (shown sheet.new) }
{
    let number = number(as_number)?;
    let grant = grant_of(names, subjects, targets, granted)?;
    of_line(sheet.enter_grant(number, grant))
}

/// The property that words say.
fn property_of(
    names: &Names,
    of_template: Word<'_>,
    first: Word<'_>,
    second: Option<Word<'_>>,
) -> Result<Property, Flaw>
    ensures { result ≡ property_in names.now (seen of_template.entry) (seen first.entry) (option_map seen second.entry) }
{
    let template = template(of_template)?;
    let first = set(names, first)?;
    let second = second_set(names, second)?;
    Ok(Property {
        template,
        first,
        second,
    })
}

pub fn enter_property<P: Policy>(
    sheet: &mut Sheet<P>,
    names: &Names,
    as_number: Word<'_>,
    of_template: Word<'_>,
    first: Word<'_>,
    second: Option<Word<'_>>,
) -> Result<(), Flaw>
    ensures { Answers (shown sheet.old) (property_call names.now (seen as_number.entry) (seen of_template.entry) (seen first.entry) (option_map seen second.entry)) result (shown sheet.new) }
{
    let number = number(as_number)?;
    let property = property_of(names, of_template, first, second)?;
    of_line(sheet.enter_property(number, property))
}
