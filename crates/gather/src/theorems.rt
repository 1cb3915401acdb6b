ghost use Rattle.gather.specs.Gathered.{Once};
ghost use Rattle.gather.specs.Marks.{MarksReached};
ghost use Rattle.gather.specs.Members.{ByMembers, MembersReached};
ghost use Rattle.std.specs.Prelude.{◌≡◌};

use super::join::Join;

// What `gather` promises leaves one list only.
pub fn gathered_once<J: Join>() -> u8
    ensures theorem { Once J.NONE J.op }
    ensures answer { result ≡ 0 }
{
    0
}

// Two sets with the same members are equal.
pub fn sets_by_members() -> u8
    ensures theorem { ByMembers }
    ensures answer { result ≡ 0 }
{
    0
}

// A gathered set has exactly the members of the seeds that its place reaches.
pub fn members_reached() -> u8
    ensures theorem { MembersReached }
    ensures answer { result ≡ 0 }
{
    0
}

// A gathered mark is yes exactly where its place reaches a seed that is yes.
pub fn marks_reached() -> u8
    ensures theorem { MarksReached }
    ensures answer { result ≡ 0 }
{
    0
}
