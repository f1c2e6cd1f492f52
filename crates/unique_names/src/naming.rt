// Discriminators, and that no two keys share the beginning of a word.
ghost use Rattle.std.specs.Prelude.{◌≡◌, ◌++◌, IfOk, string_bytes};
ghost use Rattle.unique_names.specs.Names.{numeral, step_text, steps_text, discriminator_of, OneKeyBegins, PrefixFree, DiscriminatorsAreUtf8};

use crate::key::Key;
use crate::step::KeyStep;
use std::alloc::{AllocError, Global};
use std::fmt::Write;
use swift_base::Text;

/// The text with which every unique name of this key's request begins.
pub fn discriminator(alloc: Global, key: &Key) -> Result<Text, AllocError>
    ensures { IfOk result (λ text. text ≡ discriminator_of key.now) }
{
    let mut text = String::from_str(alloc, "$sX")?;
    put_steps(&mut text, &key.steps)?;
    Ok(Text::from_vec(text.into_bytes()))
}

fn put_steps(text: &mut String, steps: &[KeyStep]) -> Result<(), AllocError>
    ensures { IfOk result (λ _. string_bytes text.new ≡ string_bytes text.old ++ steps_text steps.now) }
{
    'steps: for step in steps {
        put_step(text, *step)?;
    }
    text.push('E')?;
    Ok(())
}

fn put_step(text: &mut String, step: KeyStep) -> Result<(), AllocError>
    ensures { IfOk result (λ _. string_bytes text.new ≡ string_bytes text.old ++ step_text step) }
{
    put_number(text, step.offset as usize)?;
    text.push(char::from(step.role.letter()))?;
    put_number(text, step.member as usize)?;
    text.push('_')?;
    Ok(())
}

pub(crate) fn put_number(text: &mut String, number: usize) -> Result<(), AllocError>
    ensures { IfOk result (λ _. string_bytes text.new ≡ string_bytes text.old ++ numeral number) }
{
    write!(text, "{number}")
}

/// A word begins with the discriminator of one key at most, so no key's discriminator begins another's.
pub fn discriminators_are_prefix_free()
    ensures one_key { OneKeyBegins }
    ensures prefix_free { PrefixFree }
{}

pub fn discriminators_are_utf8()
    ensures { DiscriminatorsAreUtf8 }
{}
