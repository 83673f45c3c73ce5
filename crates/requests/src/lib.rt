// The lent list of a day's cover requests, 65 bytes each: identifier 1-25, account 26-49, sum 50-65 (02 #103).
#![tactic(auto)]

ghost use Rattle.std.specs.Prelude.{◌≡◌, position};
ghost use Rattle.base.specs.Groups.{some};
ghost use Rattle.requests.specs.Requests.{requests_of, has_id, keeps, is_request_list};

// The bytes of a request.
pub const REQUEST: usize = 65;

// The place of the first request with the identifier, counted from 0. The list is lent in any order and there is no memory to sort it in: each
// request is looked at.
pub fn find(list: &[u8], id: &[u8]) -> Option<usize>
    ensures { result ≡ position (has_id id.now) (requests_of list.now) }
{
    list.chunks_exact(REQUEST)
        .position(|q| text::is_same(&q[..25], id))
}

// Whether some request is for an account that the bank keeps: the bank received a request that day (002 12.1.1, F523.1).
pub fn has_bank(list: &[u8], bank: &[u8]) -> bool
    ensures { result ≡ some (keeps bank.now) (requests_of list.now) }
{
    list.chunks_exact(REQUEST)
        .any(|q| text::is_same(&q[25..28], bank))
}

// Whether the bytes are a request list: whole requests, each sum digits, no identifier twice (02 #103, refusal 11). An empty list is one.
pub fn is_request_list(list: &[u8]) -> bool
    ensures { result ≡ is_request_list list.now }
{
    if list.len() % REQUEST != 0 {
        return false;
    }
    for k in 0..list.len() / REQUEST {
        let (q, later) = list[k * REQUEST..].split_at(REQUEST);
        if !digits::is_digits(&q[49..]) {
            return false;
        }
        if find(later, &q[..25]).is_some() {
            return false;
        }
    }
    true
}
