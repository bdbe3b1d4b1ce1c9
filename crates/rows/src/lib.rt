// Rows of elements of any kind.
//
// `insert_before` and `remove_at` put an element in before a place of a slice and take one out at a place.
// `insert` and `remove` do the same to a Vec, which grows or shrinks by one, and need no memory.
#![tactic(auto)]

ghost use Rattle.std.specs.Prelude.{◌≡◌, ◌-◌, ◌<◌, ◌≤◌, ◌++◌, length, take, drop, vec_len, vec_capacity};
ghost use Rattle.std.specs.List.{insert, remove};

// The last element gives up its place.
pub fn insert_before<T: Copy>(row: &mut [T], at: usize, x: T)
    requires { at < length row.old }
    ensures { row.new ≡ insert (take (length row.old - 1) row.old) at x }
{
    let last = row.len() - 1;
    row.copy_within(at..last, at + 1);
    row[at] = x;
}

// The last element stays in its place, and stands before it too.
pub fn remove_at<T: Copy>(row: &mut [T], at: usize)
    requires { at < length row.old }
    ensures { row.new ≡ remove row.old at ++ drop (length row.old - 1) row.old }
{
    row.copy_within(at + 1.., at);
}

// Both keep the capacity: that ties the row before to the row after, so it is a clause and in no type.

pub fn insert<T: Copy>(row: &mut Vec<T>, at: usize, x: T)
    requires at { at ≤ vec_len row.old }
    requires room { vec_len row.old < vec_capacity row.old }
    ensures items { row.new.items ≡ insert row.old.items at x }
    ensures capacity { vec_capacity row.new ≡ vec_capacity row.old }
{
    row.insert(at, x).unwrap();
}

pub fn remove<T: Copy>(row: &mut Vec<T>, at: usize)
    requires { at < vec_len row.old }
    ensures items { row.new.items ≡ remove row.old.items at }
    ensures capacity { vec_capacity row.new ≡ vec_capacity row.old }
{
    row.remove(at);
}
