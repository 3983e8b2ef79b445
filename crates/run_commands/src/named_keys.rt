//! The keys by which addresses are signed, as the words name their files.
ghost use Rattle.std.specs.Prelude.{◌≡◌, ℕ, List, Option, IsSome, MatchResult, None, Some};
ghost use Rattle.address_keys.specs.Tokens.{key_of};
ghost use Rattle.run_commands.specs.Given.{GivesKey, GivesKeys, GivesNoKey, GivesNoKeys};

use address_keys::{Key, Keys};
use link_door::World;
use rtb_num::{Failed, Txt};

/// The keys with these names: the key, and behind it the former one.
pub(crate) fn read_keys<W: World>(
    world: &mut W,
    key: &Option<Txt>,
    former: &Option<Txt>,
) -> Result<Keys, Failed>
    ensures { MatchResult result (GivesKeys ⟦<W as World>⟧ key.now former.now world.old world.new) (λ _. GivesNoKeys ⟦<W as World>⟧ key.now former.now world.old world.new) }
{
    match named_key(world, key) {
        Ok(key) => keys_with(world, key, former),
        Err(Failed) => Err(Failed),
    }
}

// The same, with the key.
fn keys_with<W: World>(
    world: &mut W,
    key: Option<Key>,
    former: &Option<Txt>,
) -> Result<Keys, Failed>
    ensures { (before : W) (path : Option (List ℕ)) → GivesKey ⟦<W as World>⟧ path before world.old key
        → MatchResult result (GivesKeys ⟦<W as World>⟧ path former.now before world.new) (λ _. GivesNoKeys ⟦<W as World>⟧ path former.now before world.new) }
{
    match named_key(world, former) {
        Ok(former) => Ok(Keys { key, former }),
        Err(Failed) => Err(Failed),
    }
}

// The key with this name, where one is named.
fn named_key<W: World>(world: &mut W, path: &Option<Txt>) -> Result<Option<Key>, Failed>
    ensures { MatchResult result (GivesKey ⟦<W as World>⟧ path.now world.old world.new) (λ _. (name : List ℕ) × (path.now ≡ Some name) × GivesNoKey ⟦<W as World>⟧ name world.old world.new) }
{
    match path {
        Some(path) => key_at(world, path),
        None => Ok(None),
    }
}

fn key_at<W: World>(world: &mut W, path: &Txt) -> Result<Option<Key>, Failed>
    ensures { MatchResult result (GivesKey ⟦<W as World>⟧ (Some path.now) world.old world.new) (λ _. GivesNoKey ⟦<W as World>⟧ path.now world.old world.new) }
{
    match world.key(path) {
        Ok(text) => key_in(&text),
        Err(Failed) => Err(Failed),
    }
}

// The key that the text is.
fn key_in(text: &Txt) -> Result<Option<Key>, Failed>
    ensures { MatchResult result (λ key. (key_of text.now ≡ key) × IsSome key) (λ _. key_of text.now ≡ None) }
{
    match Key::new(text.as_bytes()) {
        Some(key) => Ok(Some(key)),
        None => Err(Failed),
    }
}
