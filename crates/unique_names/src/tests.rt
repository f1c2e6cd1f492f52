// What a user meets: a discriminator's bytes, and keys as keys of a map.
use crate::{Key, KeyStep, ROLES, Role, UniqueNames, discriminator, is_unique};
use std::alloc::{AllocError, Global};
use std::collections::BTreeMap;
use std::test::Fail;
use swift_base::Text;

fn step(offset: u32, role: Role, member: u32) -> KeyStep {
    KeyStep {
        offset,
        role,
        member,
    }
}

fn key_of(alloc: Global, steps: &[KeyStep]) -> Result<Key, AllocError> {
    Ok(Key {
        steps: Vec::from_slice(alloc, steps)?,
    })
}

#[test]
fn discriminator_of_two_steps(rt: HostRuntime) -> Result<(), Fail> {
    let alloc = rt.alloc();
    let inner = key_of(
        alloc,
        &[step(8, Role::Expression, 0), step(10, Role::Expression, 0)],
    )?;
    assert_eq!(rt;
        discriminator(alloc, &inner)?.bytes(),
        b"$sX8e0_10e0_E".as_slice()
    );
    let member = key_of(alloc, &[step(4294967295, Role::MemberAttribute, 12)])?;
    assert_eq!(rt;
        discriminator(alloc, &member)?.bytes(),
        b"$sX4294967295t12_E".as_slice()
    );
    assert_eq!(rt;
        discriminator(alloc, &Key::source(alloc))?.bytes(),
        b"$sXE".as_slice()
    );
    Ok(())
}

#[test]
fn each_role_has_its_text(rt: HostRuntime) {
    for (role, letter, text) in ROLES {
        assert_eq!(rt; role.letter(), letter);
        assert_eq!(rt; Role::of_text(text), Some(role));
        assert_eq!(rt; Role::of_text(role.text()), Some(role));
    }
    assert_eq!(rt; Role::of_text("body"), None);
}

#[test]
fn a_map_finds_keys(rt: HostRuntime) -> Result<(), Fail> {
    let alloc = rt.alloc();
    let mut asked = BTreeMap::new(alloc);
    let inner = key_of(
        alloc,
        &[step(8, Role::Expression, 0), step(10, Role::Expression, 0)],
    )?;
    asked.insert(inner.clone()?, 1u8)?;
    asked.insert(key_of(alloc, &[step(8, Role::Peer, 0)])?, 2)?;
    asked.insert(key_of(alloc, &[step(8, Role::Expression, 0)])?, 3)?;
    assert_eq!(rt; asked.len(), 3);
    assert_eq!(rt; asked.get(&inner), Some(&1));
    assert!(rt; asked.get(&Key::source(alloc)).is_none());
    Ok(())
}

#[test]
fn unique_names_count_up(rt: HostRuntime) -> Result<(), Fail> {
    let alloc = rt.alloc();
    let key_text = Text::from_bytes(alloc, b"$sX8e0_E")?;
    let mut names = UniqueNames::new(key_text);
    assert_eq!(rt;
        names.make(alloc, "x")?.bytes(),
        b"$sX8e0_E1xfMu_".as_slice()
    );
    assert_eq!(rt;
        names.make(alloc, "y")?.bytes(),
        b"$sX8e0_E1yfMu0_".as_slice()
    );
    assert_eq!(rt;
        names.make(alloc, "")?.bytes(),
        b"$sX8e0_E7__localfMu1_".as_slice()
    );
    assert_eq!(rt; names.made(), 3);
    Ok(())
}

#[test]
fn a_unique_name_goes_on_behind_its_key_text(rt: HostRuntime) {
    let key_text = b"$sX8e0_E".as_slice();
    assert!(rt; is_unique(key_text, b"$sX8e0_E1xfMu_"));
    assert!(rt; !is_unique(key_text, key_text));
    assert!(rt; !is_unique(key_text, b"$sX8p0_E1xfMu_"));
}
