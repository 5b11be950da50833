// The same messages, read by a program that has their bytes.
ghost use Rattle.std.specs.Prelude.{◌≡◌, Bool, ℕ, ◌*◌, length};
ghost use Rattle.node_messages.specs.CodeList.{read_code_list};
ghost use Rattle.node_messages.specs.Information.{read_information};
ghost use Rattle.handset_words.specs.Outcome.{answer_as};
ghost use Rattle.handset_words.specs.Message.{told_by, numbers_told, list_read, information_read};

// Reads a code list. Code and end of each area go to the front of `areas`, the codes of the services to the front of `services`;
// their counts and the flag are told beside them.
#[unsafe(no_mangle)]
pub extern "C" fn uluvoli_read_code_list(
    message: &[u8],
    areas: &mut [u16],
    services: &mut [u16],
    area_count: &mut usize,
    service_count: &mut usize,
    more: &mut bool,
) -> u32
    ensures value { result ≡ answer_as (list_read message.now (length areas.old) (length services.old)) }
    ensures areas_after { let l = (read_code_list message.now).list in areas.new ≡ numbers_told (list_read message.now (length areas.old) (length services.old)) areas.old (2 * l.areas) l.ranges }
    ensures services_after { let l = (read_code_list message.now).list in services.new ≡ numbers_told (list_read message.now (length areas.old) (length services.old)) services.old l.services l.codes }
    ensures area_count_after { area_count.new ≡ told_by {A = ℕ} (list_read message.now (length areas.old) (length services.old)) area_count.old (read_code_list message.now).list.areas }
    ensures service_count_after { service_count.new ≡ told_by {A = ℕ} (list_read message.now (length areas.old) (length services.old)) service_count.old (read_code_list message.now).list.services }
    ensures more_after { more.new ≡ told_by {A = Bool} (list_read message.now (length areas.old) (length services.old)) more.old (read_code_list message.now).list.more }
{
    handset::readers::uluvoli_read_code_list(
        message,
        areas,
        services,
        area_count,
        service_count,
        more,
    )
}

// Reads block information. The assigned counts go to the front of `assigned`, the free ones to the front of `free`, and `nodes` tells how
// many nodes they are of.
#[unsafe(no_mangle)]
pub extern "C" fn uluvoli_read_block_information(
    message: &[u8],
    assigned: &mut [u16],
    free: &mut [u16],
    nodes: &mut usize,
) -> u32
    ensures value { result ≡ answer_as (information_read message.now (length assigned.old) (length free.old)) }
    ensures assigned_after { let t = (read_information message.now).told in assigned.new ≡ numbers_told (information_read message.now (length assigned.old) (length free.old)) assigned.old t.count t.assigned }
    ensures free_after { let t = (read_information message.now).told in free.new ≡ numbers_told (information_read message.now (length assigned.old) (length free.old)) free.old t.count t.free }
    ensures nodes_after { nodes.new ≡ told_by {A = ℕ} (information_read message.now (length assigned.old) (length free.old)) nodes.old (read_information message.now).told.count }
{
    handset::readers::uluvoli_read_block_information(message, assigned, free, nodes)
}
