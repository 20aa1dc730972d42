// The programs of the tests, as texts.

/// Prints a number.
pub(crate) const SEVEN: &str = "kind Main 0\non start 0\nint r0 7\nprint r0\nend\n";

/// The report of its run.
pub(crate) const SEVEN_REPORT: &str =
    "7\n--\nend quiet\nactors made 1 left 0\nobjects made 0 left 0\n";

/// Prints the largest number.
pub(crate) const MOST: &str =
    "kind Main 0\non start 0\nint r0 18446744073709551615\nprint r0\nend\n";

/// A pinned actor keeps an object of its own.
pub(crate) const PINNED: &str =
    "kind Main 1\non start 0\npin\nint r0 5\nrow r1 r0\nstore f0 r1\nend\n";

/// An actor sends an object of its own to itself.
pub(crate) const TO_ITSELF: &str =
    "kind Main 0\non start 0\nself r0\nint r1 1\nrow r2 r1\nsend r0 back r2\nend\non back 1\nend\n";

/// An object goes from the first actor to a second and on to a third, which drops it.
pub(crate) const PASSED: &str =
    "kind Main 0\non start 0\npin\nnew r0 A\nnew r1 B\nint r2 9\nrow r3 r2\nsend r0 give r3 r1\nend\nkind A 0\non give 2\nsend r1 keep r0\nend\nkind B 0\non keep 1\nget r1 r0 0\nprint r1\nend\n";

/// One letter, two of whose arguments reach one object.
pub(crate) const REACHED_TWICE: &str =
    "kind Main 0\non start 0\npin\nnew r0 A\nint r1 4\nrow r2 r1\nrow r3 r2\nsend r0 both r2 r3\nend\nkind A 0\non both 2\nend\n";

/// A pinned actor made an object that names another actor, which alone keeps the object.
pub(crate) const NAMED: &str =
    "kind Main 0\non start 0\nnew r0 J\nnew r1 K\nsend r0 make r1\nend\nkind J 0\non make 1\npin\nrow r1 r0\nsend r0 keep r1\nend\nkind K 1\non keep 1\nstore f0 r0\nend\n";

/// Two peers hold each other, and nobody else holds them in the end.
pub(crate) const PEERS: &str =
    "kind Main 0\non start 0\npin\nnew r0 Peer\nnew r1 Peer\nsend r0 meet r1\nsend r1 meet r0\nend\nkind Peer 1\non meet 1\nstore f0 r0\nend\n";

/// A pinned actor keeps an object of another one.
pub(crate) const KEPT: &str =
    "kind Main 1\non start 0\npin\nnew r0 Maker\nself r1\nsend r0 make r1\nend\non got 1\nstore f0 r0\nend\nkind Maker 0\non make 1\nint r1 3\nrow r2 r1\nsend r0 got r2\nend\n";

/// Two peers hold each other; one of them pokes, and the other prints.
pub(crate) const PING: &str =
    "kind Main 0\non start 0\nnew r0 Peer\nnew r1 Peer\nsend r1 meet r0\nsend r0 meet r1\nsend r0 poke\nend\nkind Peer 1\non meet 1\nstore f0 r0\nend\non poke 0\nload r0 f0\nsend r0 ping\nend\non ping 0\nint r0 1\nprint r0\nend\n";

/// Letters that nobody hears: unknown behaviours, too many values, and no actor to send to.
pub(crate) const UNHEARD: &str =
    "kind Main 0\non start 0\npin\nself r0\nint r1 1\nrow r2 r1\nsend r0 nowhere r2\nsend r0 start r2\nsend r1 start\nprint r1\nend\n";

/// A sum past the largest number.
pub(crate) const WRAPS: &str =
    "kind Main 0\non start 0\nint r0 18446744073709551615\nprint r0\nint r1 1\nadd r0 r0 r1\nprint r0\nend\n";

/// Prints each kind of value.
pub(crate) const VALUES: &str =
    "kind Main 0\non start 0\nself r0\nprint r0\nrow r1 r0\nprint r1\nget r2 r1 0\nprint r2\nget r3 r1 7\nprint r3\nadd r4 r1 r0\nprint r4\nend\n";

/// An actor is sent to itself twice.
pub(crate) const SENT_TWICE: &str =
    "kind Main 0\non start 0\nnew r0 A\nsend r0 got r0\nsend r0 got r0\nend\nkind A 0\non got 1\nend\n";

/// A letter names an object, whose row names another one.
pub(crate) const OPENED: &str =
    "kind Main 0\non start 0\npin\nnew r0 A\nint r1 4\nrow r2 r1\nrow r3 r2\nsend r0 open r3\nend\nkind A 0\non open 1\nget r1 r0 0\nget r2 r1 0\nprint r2\nend\n";

/// An actor sends an object and goes on counted; what comes back finds its report out.
pub(crate) const DROPPED: &str =
    "kind Main 0\non start 0\nnew r0 A\nint r1 1\nrow r2 r1\nsend r0 keep r2\nend\nkind A 0\non keep 1\nend\n";

/// An actor sends itself longer and longer chains of rows, up to a thousand.
pub(crate) const CHAIN: &str =
    "kind Main 0\non start 0\nint r0 1000\nself r2\nsend r2 step r0 r1\nend\non step 2\njzero r0 done\nrow r1 r1\nint r2 1\nsub r0 r0 r2\nself r2\nsend r2 step r0 r1\nlabel done\nend\n";

/// It makes 65,535 actors; its own is one more.
pub(crate) const ALL_LEAVES: &str =
    "kind Main 0\non start 0\nint r0 65535\nself r1\nsend r1 step r0\nend\non step 1\njzero r0 done\nnew r1 Leaf\nint r2 1\nsub r0 r0 r2\nself r1\nsend r1 step r0\nlabel done\nend\nkind Leaf 0\n";

/// It would make 65,536 actors; its own is one more.
pub(crate) const ONE_LEAF_MORE: &str =
    "kind Main 0\non start 0\nint r0 65536\nself r1\nsend r1 step r0\nend\non step 1\njzero r0 done\nnew r1 Leaf\nint r2 1\nsub r0 r0 r2\nself r1\nsend r1 step r0\nlabel done\nend\nkind Leaf 0\n";

/// Two actors that nobody holds each print a number.
pub(crate) const TWO_PRINT: &str =
    "kind Main 0\non start 0\nnew r0 W\nnew r1 W\nsend r0 work\nsend r1 work\nend\nkind W 0\non work 0\nint r0 1\nprint r0\nend\n";

/// Six actors that nobody holds each print a number: the turns of all seven have 25 segments, two of each
/// of the six.
pub(crate) const SIX_PRINT: &str =
    "kind Main 0\non start 0\nnew r0 W\nnew r1 W\nnew r2 W\nnew r3 W\nnew r4 W\nnew r5 W\nsend r0 work\nsend r1 work\nsend r2 work\nsend r3 work\nsend r4 work\nsend r5 work\nend\nkind W 0\non work 0\nint r0 1\nprint r0\nend\n";

/// A pinned actor makes an object and keeps nothing of it.
pub(crate) const LOOSE: &str = "kind Main 0\non start 0\npin\nint r0 1\nrow r1 r0\nend\n";

/// An actor makes an object that names another, and prints before its turn ends.
pub(crate) const NESTED: &str =
    "kind Main 0\non start 0\nint r0 1\nrow r1 r0\nrow r2 r1\nprint r0\nend\n";

/// An actor makes an object, drops it, and makes another one before it collects.
pub(crate) const MADE_AGAIN: &str =
    "kind Main 0\non start 0\nint r0 1\nrow r1 r0\nself r2\nsend r2 again\nend\non again 0\nrow r1 r0\nend\n";
