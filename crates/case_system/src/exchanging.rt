//! Items that are exchanged in a list.
ghost use Rattle.std.specs.Prelude.{◌≡◌, ◌≤◌, ◌<◌, length, insert, remove, slice_index_or};

use std::mem;

/// Takes the item at a place out, and puts another one in, at a place among those that are left. Only what stands between is moved.
pub fn exchange<T>(items: &mut [T], out: usize, item: T, to: usize) -> T
    requires out { out < length items.old }
    requires to { to < length items.old }
    ensures exchanged { items.new ≡ insert (remove items.old out) to item }
    ensures len { length items.new ≡ length items.old }
{
    let gone = mem::replace(&mut items[out], item);
    if to <= out {
        bring_back(items, out, to);
    } else {
        bring_on(items, out, to);
    }
    gone
}

// Moves the item at a place to one that is not after it.
fn bring_back<T>(items: &mut [T], from: usize, to: usize)
    requires order { to ≤ from }
    requires place { from < length items.old }
    ensures { (x : T) → x ≡ slice_index_or items.old from x → items.new ≡ insert (remove items.old from) to x }
{
    items[to..=from].rotate_right(1);
}

// Moves the item at a place to one that is not before it.
fn bring_on<T>(items: &mut [T], from: usize, to: usize)
    requires order { from ≤ to }
    requires place { to < length items.old }
    ensures { (x : T) → x ≡ slice_index_or items.old from x → items.new ≡ insert (remove items.old from) to x }
{
    items[from..=to].rotate_left(1);
}
